//! The stages of a command, up to the text that it writes.

ghost use Rattle.std.specs.Prelude.{◌≡◌, MatchResult, Some};
ghost use Rattle.acceptance.specs.Sources.{IsAcceptedSource};
ghost use Rattle.c_tree.specs.Inputs.{Fit};
ghost use Rattle.c_tree.specs.Trees.{unit as unit_in};
ghost use Rattle.data_file.specs.Checks.{Fits};
ghost use Rattle.interp.specs.Finished.{inputs_in};
ghost use Rattle.command_line.specs.Commands.{given, ordered, IsInRange};
ghost use Rattle.command_line.specs.Orders.{print as print_order, run_file as run_order, attempt as attempt_order, report as report_order};
ghost use Rattle.top_call.specs.Plans.{Follows, on_flip, plan_of, running, trying};
ghost use Rattle.top_call.specs.Printed.{IsPrinted};
ghost use Rattle.top_call.specs.Reports.{IsReported};
ghost use Rattle.top_call.specs.Sources.{AnySource, AnyText};
ghost use Rattle.top_call.specs.Stages.{IsFramed, IsLoad, frame_of, unit_of};
ghost use Rattle.command_line.specs.declared.outcome.Stop.TheVariants.{NoMemory};

use crate::demos::demo;
use crate::faults::read_fault;
use crate::inputs::read;
use crate::judging::{any_text, source as source_in};
use crate::runnable::Runnable;
use crate::runs::{ran, tried};
use c_tree::Inputs;
use command_line::{Command, FileWord, Finish, Output, Stop};
use data_file::fits_as_meant;
use edge::{ByteList, Loaded, Shelf, ShelfFault};
use fault_plan::flips_fit_units;
use kernel_check::Kernel;
use rewrite::{Options, instrument};
use std::alloc::Global;
use tree_texts::instrumented_units_have_texts;

fn loaded<F: Shelf>(
    alloc: Global,
    word: FileWord,
    name: &str,
    shelf: &mut F,
) -> Result<ByteList, Stop>
    ensures { IsLoad word name.now (F.told shelf.old) (F.told shelf.new) result }
{
    match shelf.load(alloc, name, word.limit()) {
        Ok(Loaded::Bytes(bytes)) => Ok(bytes),
        Ok(Loaded::TooLong) => Err(Stop::TooLong(word)),
        Err(ShelfFault::Failed) => Err(Stop::ReadFault(word)),
        Err(ShelfFault::OutOfMemory) => Err(Stop::NoMemory),
    }
}

fn printed(alloc: Global, source: &Kernel) -> Result<Output, Stop>
    requires { IsAcceptedSource (unit_in source.now.unit) }
    ensures { MatchResult result (IsPrinted (unit_in source.now.unit)) (λ cause. cause ≡ NoMemory) }
{
    instrumented_units_have_texts();
    let guarded = instrument(alloc, source, Options { split: false })?;
    let text = c_printer::print(alloc, &guarded)?;
    Ok(Output {
        text: ByteList::new(text),
        finish: Finish::Done,
    })
}

fn print<F: Shelf>(alloc: Global, source: &str, shelf: &mut F) -> Result<Output, Stop>
    ensures { Follows (plan_of (print_order source.now)) (F.told shelf.old) (F.told shelf.new) result }
{
    let text = loaded(alloc, FileWord::Source, source, shelf)?;
    let kernel = source_in(alloc, text.as_slice())?;
    printed(alloc, &kernel)
}

// The run of a unit under the flip of a file.
fn run_flipped<F: Shelf>(
    alloc: Global,
    taken: &Runnable,
    inputs: Inputs,
    flip: &str,
    shelf: &mut F,
) -> Result<Output, Stop>
    requires framed { IsFramed AnyText (unit_of taken.now) (frame_of taken.now) }
    requires fits { Fit (unit_of taken.now) (inputs_in inputs) }
    requires by_frame { Fits (frame_of taken.now) inputs }
    ensures { Follows (on_flip (Some flip.now) running (unit_of taken.now) (inputs_in inputs)) (F.told shelf.old) (F.told shelf.new) result }
{
    flips_fit_units();
    let text = loaded(alloc, FileWord::Flip, flip, shelf)?;
    let fault = read_fault(taken.frame(), &inputs, text.as_slice())?;
    ran(alloc, taken, inputs, Some(&fault))
}

// The run of a unit, under the flip of a file where there is one.
fn run_on<F: Shelf>(
    alloc: Global,
    taken: &Runnable,
    inputs: Inputs,
    flip: Option<&str>,
    shelf: &mut F,
) -> Result<Output, Stop>
    requires framed { IsFramed AnyText (unit_of taken.now) (frame_of taken.now) }
    requires fits { Fit (unit_of taken.now) (inputs_in inputs) }
    requires by_frame { Fits (frame_of taken.now) inputs }
    ensures { Follows (on_flip (given flip.entry) running (unit_of taken.now) (inputs_in inputs)) (F.told shelf.old) (F.told shelf.new) result }
{
    match flip {
        None => ran(alloc, taken, inputs, None),
        Some(flip) => run_flipped(alloc, taken, inputs, flip, shelf),
    }
}

fn run_file<F: Shelf>(
    alloc: Global,
    file: &str,
    input: &str,
    flip: Option<&str>,
    shelf: &mut F,
) -> Result<Output, Stop>
    ensures { Follows (plan_of (run_order file.now input.now (given flip.entry))) (F.told shelf.old) (F.told shelf.new) result }
{
    fits_as_meant();
    let text = loaded(alloc, FileWord::File, file, shelf)?;
    let taken = any_text(alloc, text.as_slice())?;
    let bytes = loaded(alloc, FileWord::Data, input, shelf)?;
    let inputs = read(alloc, taken.frame(), bytes.as_slice())?;
    drop(bytes);
    run_on(alloc, &taken, inputs, flip, shelf)
}

// The run of an instrumented unit under the flip of a file.
fn try_flipped<F: Shelf>(
    alloc: Global,
    source: &Kernel,
    inputs: Inputs,
    flip: &str,
    shelf: &mut F,
) -> Result<Output, Stop>
    requires framed { IsFramed AnySource (unit_in source.now.unit) source.now.frame }
    requires fits { Fit (unit_in source.now.unit) (inputs_in inputs) }
    requires by_frame { Fits source.now.frame inputs }
    ensures { Follows (on_flip (Some flip.now) trying (unit_in source.now.unit) (inputs_in inputs)) (F.told shelf.old) (F.told shelf.new) result }
{
    flips_fit_units();
    let text = loaded(alloc, FileWord::Flip, flip, shelf)?;
    let fault = read_fault(source.frame(), &inputs, text.as_slice())?;
    tried(alloc, source, inputs, Some(&fault))
}

// The run of an instrumented unit, under the flip of a file where there is one.
fn try_on<F: Shelf>(
    alloc: Global,
    source: &Kernel,
    inputs: Inputs,
    flip: Option<&str>,
    shelf: &mut F,
) -> Result<Output, Stop>
    requires framed { IsFramed AnySource (unit_in source.now.unit) source.now.frame }
    requires fits { Fit (unit_in source.now.unit) (inputs_in inputs) }
    requires by_frame { Fits source.now.frame inputs }
    ensures { Follows (on_flip (given flip.entry) trying (unit_in source.now.unit) (inputs_in inputs)) (F.told shelf.old) (F.told shelf.new) result }
{
    match flip {
        None => tried(alloc, source, inputs, None),
        Some(flip) => try_flipped(alloc, source, inputs, flip, shelf),
    }
}

fn attempt<F: Shelf>(
    alloc: Global,
    source: &str,
    input: &str,
    flip: Option<&str>,
    shelf: &mut F,
) -> Result<Output, Stop>
    ensures { Follows (plan_of (attempt_order source.now input.now (given flip.entry))) (F.told shelf.old) (F.told shelf.new) result }
{
    fits_as_meant();
    let whole = loaded(alloc, FileWord::Source, source, shelf)?;
    let kernel = source_in(alloc, whole.as_slice())?;
    let bytes = loaded(alloc, FileWord::Data, input, shelf)?;
    let inputs = read(alloc, kernel.frame(), bytes.as_slice())?;
    drop(bytes);
    try_on(alloc, &kernel, inputs, flip, shelf)
}

fn reported(alloc: Global, source: &Kernel) -> Result<Output, Stop>
    requires { IsAcceptedSource (unit_in source.now.unit) }
    ensures { MatchResult result (IsReported (unit_in source.now.unit)) (λ cause. cause ≡ NoMemory) }
{
    let text = reports::report(alloc, source.unit())?;
    Ok(Output {
        text: ByteList::new(text),
        finish: Finish::Done,
    })
}

fn report<F: Shelf>(alloc: Global, source: &str, shelf: &mut F) -> Result<Output, Stop>
    ensures { Follows (plan_of (report_order source.now)) (F.told shelf.old) (F.told shelf.new) result }
{
    let text = loaded(alloc, FileWord::Source, source, shelf)?;
    let kernel = source_in(alloc, text.as_slice())?;
    reported(alloc, &kernel)
}

/// The stages of a command, in order. The first that fails ends it.
pub fn prepared<F: Shelf>(
    alloc: Global,
    command: Command<'_>,
    shelf: &mut F,
) -> Result<Output, Stop>
    requires { IsInRange command }
    ensures { Follows (plan_of (ordered command.entry)) (F.told shelf.old) (F.told shelf.new) result }
{
    match command {
        Command::Print { source } => print(alloc, source, shelf),
        Command::Run { file, input, flip } => run_file(alloc, file, input, flip, shelf),
        Command::Attempt {
            source,
            input,
            flip,
        } => attempt(alloc, source, input, flip, shelf),
        Command::Report { source } => report(alloc, source, shelf),
        Command::Demo { number } => demo(alloc, number),
    }
}
