//! The last stages of the commands that run a unit.

ghost use Rattle.std.specs.Prelude.{◌≡◌, IfOk, IfSome, MatchResult, option_map};
ghost use Rattle.acceptance.specs.Runnable.{IsRunnable};
ghost use Rattle.c_tree.specs.Inputs.{Fit};
ghost use Rattle.c_tree.specs.Run as runs;
ghost use Rattle.c_tree.specs.Trees.{unit as unit_in};
ghost use Rattle.data_file.specs.Conditions.{IsEndOf};
ghost use Rattle.c_tree.specs.Flips.{fault_in, IsFaultFor};
ghost use Rattle.interp.specs.Finished.{inputs_in, verdict_in, IsEnded};
ghost use Rattle.top_call.specs.Runs.{finish_of as finish_at, IsShown, IsRun, IsTried};
ghost use Rattle.top_call.specs.Sources.{AnySource, AnyText};
ghost use Rattle.top_call.specs.Stages.{IsFramed, frame_of, unit_of};
ghost use Rattle.command_line.specs.declared.outcome.Stop.TheVariants.{NoMemory};

use crate::runnable::Runnable;
use c_tree::{Ended, Flip, Frame, Inputs, OutOfMemory, Unit, Verdict};
use command_line::{Finish, Output, Stop};
use data_file::output;
use edge::ByteList;
use kernel_check::Kernel;
use rewrite::{Options, instrument};
use std::alloc::Global;
use tree_texts::instrumented_units_have_texts;

fn finish_of(verdict: &Verdict) -> Finish
    ensures { result ≡ finish_at (verdict_in verdict.now) }
{
    match verdict {
        Verdict::Plain | Verdict::Balanced => Finish::Done,
        Verdict::Fault(_) | Verdict::Index(_) => Finish::Reported,
        Verdict::Outside(_) => Finish::Outside,
    }
}

fn shown(alloc: Global, frame: &Frame, ended: &Ended) -> Result<Output, Stop>
    requires { IsEndOf frame.now ended.now }
    ensures { MatchResult result (IsShown frame.now ended.now) (λ cause. cause ≡ NoMemory) }
{
    let text = output(alloc, frame, ended)?;
    Ok(Output {
        text: ByteList::new(text),
        finish: finish_of(&ended.verdict),
    })
}

/// The end of the run of a unit under a flip. No unit has 2^31 parameters in earnest.
pub fn end_of(
    alloc: Global,
    unit: &Unit,
    inputs: &Inputs,
    flip: Option<&Flip>,
) -> Result<Ended, OutOfMemory>
    requires form { IsRunnable (unit_in unit.now) }
    requires fits { Fit (unit_in unit.now) (inputs_in inputs.now) }
    requires flip_fits { IfSome flip (λ f. IsFaultFor (unit_in unit.now) (inputs_in inputs.now) (fault_in f.now)) }
    ensures { IfOk result (IsEnded (runs.run (unit_in unit.now) (inputs_in inputs.now) (option_map (λ f. fault_in f.now) flip.entry))) }
{
    if unit.params.len() < 1 << 31 {
        interp::run(alloc, unit, inputs, flip)
    } else {
        Err(OutOfMemory)
    }
}

/// The output of the run of a source or of a printed unit under a flip, by its frame.
pub fn ran(
    alloc: Global,
    taken: &Runnable,
    inputs: Inputs,
    flip: Option<&Flip>,
) -> Result<Output, Stop>
    requires framed { IsFramed AnyText (unit_of taken.now) (frame_of taken.now) }
    requires fits { Fit (unit_of taken.now) (inputs_in inputs) }
    requires flip_fits { IfSome flip (λ f. IsFaultFor (unit_of taken.now) (inputs_in inputs) (fault_in f.now)) }
    ensures { MatchResult result (IsRun (unit_of taken.now) (inputs_in inputs) (option_map (λ f. fault_in f.now) flip.entry)) (λ cause. cause ≡ NoMemory) }
{
    let ended = end_of(alloc, taken.unit(), &inputs, flip)?;
    drop(inputs);
    shown(alloc, taken.frame(), &ended)
}

/// The output of the run of a source's instrumented unit under a flip, by the source's frame.
pub fn tried(
    alloc: Global,
    source: &Kernel,
    inputs: Inputs,
    flip: Option<&Flip>,
) -> Result<Output, Stop>
    requires framed { IsFramed AnySource (unit_in source.now.unit) source.now.frame }
    requires fits { Fit (unit_in source.now.unit) (inputs_in inputs) }
    requires flip_fits { IfSome flip (λ f. IsFaultFor (unit_in source.now.unit) (inputs_in inputs) (fault_in f.now)) }
    ensures { MatchResult result (IsTried (unit_in source.now.unit) (inputs_in inputs) (option_map (λ f. fault_in f.now) flip.entry)) (λ cause. cause ≡ NoMemory) }
{
    instrumented_units_have_texts();
    let guarded = instrument(alloc, source, Options { split: false })?;
    let ended = end_of(alloc, &guarded, &inputs, flip)?;
    drop(inputs);
    shown(alloc, source.frame(), &ended)
}
