//! The stage of a demonstration. Its texts are never refused: want of memory alone stops it.

ghost use Rattle.std.specs.Prelude.{◌≡◌, ◌≤◌, length, MatchResult};
ghost use Rattle.c_tree.specs.Flips.{fault_in, IsFaultFor};
ghost use Rattle.c_tree.specs.Inputs.{Fit};
ghost use Rattle.c_tree.specs.Trees.{unit as unit_in};
ghost use Rattle.data_file.specs.Answers.{MeansFitting};
ghost use Rattle.data_file.specs.Checks.{Fits};
ghost use Rattle.data_file.specs.Conditions.{IsFrame};
ghost use Rattle.fault_plan.specs.Answers.{MeansFitting as MeansFittingFlip};
ghost use Rattle.interp.specs.Finished.{inputs_in};
ghost use Rattle.top_call.specs.Demos.{IsDemonstrated, IsSummary};
ghost use Rattle.top_call.specs.Sources.{AnySource};
ghost use Rattle.top_call.specs.Stages.{IsFramed, IsTaken};
ghost use Rattle.command_line.specs.declared.outcome.Stop.TheVariants.{NoMemory};

use crate::faults::read_fault;
use crate::inputs::read;
use crate::judging::source as source_in;
use crate::runs::end_of;
use c_parser::one_unit;
use c_tree::{Flip, Frame, Inputs};
use command_line::{Finish, Output, Stop};
use data_file::{fits_as_frame, fits_as_meant, one_answer, some_answer};
use demo_kernels::{Counts, kernel_of, kernels_are_usable, summary};
use fault_plan::{flips_fit_units, one_flip_answer, some_flip_answer};
use frame_laws::{accepted_units_have_frames, frames_say_the_same, same_frames_act_alike};
use kernel_check::Kernel;
use rewrite::{Options, instrument};
use std::alloc::Global;
use tree_texts::trees_have_texts;

fn known_source(alloc: Global, text: &[u8]) -> Result<Kernel, Stop>
    requires { length text.now ≤ 16777216 }
    ensures { MatchResult result (λ k. IsTaken AnySource text.now (unit_in k.unit) k.frame) (λ cause. cause ≡ NoMemory) }
{
    match source_in(alloc, text) {
        Ok(kernel) => Ok(kernel),
        Err(_) => Err(Stop::NoMemory),
    }
}

fn known_inputs(alloc: Global, frame: &Frame, text: &[u8]) -> Result<Inputs, Stop>
    requires { IsFrame frame.now }
    ensures { MatchResult result (MeansFitting frame.now text.now) (λ cause. cause ≡ NoMemory) }
{
    match read(alloc, frame, text) {
        Ok(inputs) => Ok(inputs),
        Err(_) => Err(Stop::NoMemory),
    }
}

fn known_flip(frame: &Frame, inputs: &Inputs, text: &[u8]) -> Result<Flip, Stop>
    requires { Fits frame.now inputs.now }
    ensures { MatchResult result (MeansFittingFlip frame.now inputs.now text.now) (λ cause. cause ≡ NoMemory) }
{
    match read_fault(frame, inputs, text) {
        Ok(flip) => Ok(flip),
        Err(_) => Err(Stop::NoMemory),
    }
}

// The summary of three runs: of the source, and of its instrumented unit without the flip and with it.
fn summed(
    alloc: Global,
    number: u32,
    source: &Kernel,
    inputs: &Inputs,
    flip: &Flip,
) -> Result<Output, Stop>
    requires small { number ≤ 399 }
    requires framed { IsFramed AnySource (unit_in source.now.unit) source.now.frame }
    requires fits { Fit (unit_in source.now.unit) (inputs_in inputs.now) }
    requires flip_fits { IsFaultFor (unit_in source.now.unit) (inputs_in inputs.now) (fault_in flip.now) }
    ensures { MatchResult result (IsSummary number (unit_in source.now.unit) (inputs_in inputs.now) (fault_in flip.now)) (λ cause. cause ≡ NoMemory) }
{
    let ended = end_of(alloc, source.unit(), inputs, None)?;
    let guarded = instrument(alloc, source, Options { split: false })?;
    let without = end_of(alloc, &guarded, inputs, None)?;
    let flipped = end_of(alloc, &guarded, inputs, Some(flip))?;
    let counts = Counts {
        accesses: ended.accesses,
        turns: ended.body_turns,
    };
    let arrays = source.frame().arrays.as_slice();
    let text = summary(
        alloc,
        number,
        counts,
        arrays,
        &without.verdict,
        &flipped.verdict,
    )?;
    Ok(Output {
        text,
        finish: Finish::Done,
    })
}

/// The summary of the demonstration of a number.
pub fn demo(alloc: Global, number: u32) -> Result<Output, Stop>
    requires { number ≤ 399 }
    ensures { MatchResult result (IsDemonstrated number) (λ cause. cause ≡ NoMemory) }
{
    kernels_are_usable();
    one_unit();
    trees_have_texts();
    one_answer();
    some_answer();
    one_flip_answer();
    some_flip_answer();
    fits_as_frame();
    fits_as_meant();
    flips_fit_units();
    accepted_units_have_frames();
    frames_say_the_same();
    same_frames_act_alike();
    let texts = kernel_of(alloc, number)?;
    let kernel = known_source(alloc, texts.source.as_slice())?;
    let inputs = known_inputs(alloc, kernel.frame(), texts.inputs.as_slice())?;
    let flip = known_flip(kernel.frame(), &inputs, texts.flip.as_slice())?;
    summed(alloc, number, &kernel, &inputs, &flip)
}
