//! Data files and the outputs of runs. `specs/Texts` gives the text of values; what a text means is
//! told by `specs/Meaning`, apart from the reading.
#![tactic(auto)]

mod cells;
mod check;
mod ending;
mod front;
mod lines;
mod names;
mod number;
mod put;
mod refusal;
mod row;
mod slots;
mod write;

ghost use Rattle.std.specs.Prelude.{◌≡◌, ◌++◌, IfOk, codes, length};
ghost use Rattle.data_file.specs.Texts.{data_text, output_text, verdict_words};
ghost use Rattle.data_file.specs.Answers.{Answers};
ghost use Rattle.data_file.specs.Samples.{AreSamples};
ghost use Rattle.data_file.specs.Frames.{FitsAsFrame, FitsAsMeant};
ghost use Rattle.data_file.specs.Laws.{HasOneAnswer, HasSomeAnswer, IsReadBack};
ghost use Rattle.data_file.specs.Conditions.{HasRows, IsEndOf, IsFrame, NamesBelow};

use c_tree::{ArrayInfo, Ended, Frame, Inputs, OutOfMemory, Verdict};
pub use refusal::DataRefusal;
use std::alloc::Global;

/// The inputs that the text of a data file means.
pub fn read_data(alloc: Global, f: &Frame, text: &[u8]) -> Result<Inputs, DataRefusal>
    requires { IsFrame f.now }
    ensures { Answers f.now text.now result }
{
    let inputs = lines::read_inputs(alloc, f, text)?;
    if let Some(parameter) = check::first_outside(f, &inputs) {
        return Err(DataRefusal::OutOfRange {
            parameter: parameter as u64,
        });
    }
    if let Some(array) = check::first_too_large(f, &inputs) {
        return Err(DataRefusal::TooLarge {
            array: array as u64,
        });
    }
    if let Some(mismatch) = check::first_mismatch(f, &inputs) {
        return Err(DataRefusal::WrongCells {
            array: mismatch.array as u64,
            wanted: mismatch.wanted,
            given: mismatch.given,
        });
    }
    Ok(inputs)
}

/// The text of a data file: the parameters, then the arrays, in declared order.
pub fn write_data(alloc: Global, f: &Frame, i: &Inputs) -> Result<Vec<u8>, OutOfMemory>
    requires { HasRows f.now i.now }
    ensures { IfOk result (λ text. text.items ≡ data_text f.now i.now) }
{
    let mut out = Vec::new(alloc);
    write::put_parameters(&mut out, f.ints.as_slice(), i.ints.as_slice())?;
    write::put_arrays(&mut out, f.arrays.as_slice(), i.cells.as_slice())?;
    Ok(out)
}

/// The output of a run: the arrays that aren't `const`, in declared order, and then the verdict, with
/// names in declared order.
pub fn output(alloc: Global, f: &Frame, e: &Ended) -> Result<Vec<u8>, OutOfMemory>
    requires { IsEndOf f.now e.now }
    ensures { IfOk result (λ text. text.items ≡ output_text f.now e.now) }
{
    let mut out = Vec::new(alloc);
    ending::put_kept(&mut out, f.arrays.as_slice(), e.arrays.as_slice())?;
    ending::put_verdict(&mut out, f.arrays.as_slice(), &e.verdict)?;
    put::put(&mut out, b"\n")?;
    Ok(out)
}

/// The line of a verdict, with the names of these arrays in declared order.
pub fn verdict_line(
    alloc: Global,
    arrays: &[ArrayInfo],
    verdict: &Verdict,
) -> Result<Vec<u8>, OutOfMemory>
    requires { NamesBelow (length arrays.now) verdict.now }
    ensures { IfOk result (λ text. text.items ≡ verdict_words arrays.now verdict.now ++ codes "\n") }
{
    let mut out = Vec::new(alloc);
    ending::put_verdict(&mut out, arrays, verdict)?;
    put::put(&mut out, b"\n")?;
    Ok(out)
}

/// A text means one thing at most, and no two causes of refusals hold at once.
pub fn one_answer()
    ensures { HasOneAnswer }
{}

/// Each text means inputs that fit, or is refused for another cause than want of memory.
pub fn some_answer()
    ensures { HasSomeAnswer }
{}

/// What is written of inputs that fit is read back.
pub fn written_is_read()
    ensures { IsReadBack }
{}

/// Inputs fit a unit exactly where they fit its frame.
pub fn fits_as_frame()
    ensures { FitsAsFrame }
{}

/// Inputs that a text means by the frame of a unit, and that fit it, fit the unit.
pub fn fits_as_meant()
    ensures { FitsAsMeant }
{}

/// There are frames and inputs that meet all that is asked of them.
pub fn samples_meet_conditions()
    ensures { AreSamples }
{}
