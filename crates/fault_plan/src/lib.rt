//! Flip files: the one bit of the one cell that a run is to find inverted. `specs/Texts` gives the text
//! of a flip; what a text means is told by `specs/Meaning`, apart from the reading.
#![tactic(auto)]

mod line;
mod lines;
mod pieces;
mod refusal;

ghost use Rattle.std.specs.Prelude.{◌≡◌};
ghost use Rattle.data_file.specs.Checks as checks;
ghost use Rattle.data_file.specs.Checks.{Fits};
ghost use Rattle.fault_plan.specs.Answers.{Answers};
ghost use Rattle.fault_plan.specs.Laws.{HasOneAnswer, HasSomeAnswer, IsReadBack};
ghost use Rattle.fault_plan.specs.Reading as spec;
ghost use Rattle.fault_plan.specs.Samples.{IsSample};
ghost use Rattle.fault_plan.specs.Seen.{Reads, plain};
ghost use Rattle.fault_plan.specs.Units.{FlipsFitUnits};

use c_tree::{ArrayInfo, Flip, Frame, Inputs};
use data_file::fits_as_frame;
use line::{NamedFlip, line_of};
use lines::only_line;
pub use refusal::FlipRefusal;

/// The flip that the text says, its array by name.
fn said(text: &[u8]) -> Option<NamedFlip<'_>>
    ensures { Reads plain result (spec.said text.now) }
{
    line_of(only_line(text)?)
}

/// The number of the array of this name.
fn array_in(arrays: &[ArrayInfo], name: &[u8]) -> Option<usize>
    ensures { result ≡ spec.array_in arrays.now name.now }
{
    arrays.iter().position(|a| a.name.bytes.as_slice() == name)
}

/// How many cells the array has, by its row.
fn given_cells(i: &Inputs, array: usize) -> u64
    ensures { result ≡ checks.given_cells i.now.cells array }
{
    match i.cells.get(array) {
        Some(cells) => cells.len() as u64,
        None => 0,
    }
}

/// The flip that the text of a flip file means. It takes no memory.
pub fn read_flip(f: &Frame, i: &Inputs, text: &[u8]) -> Result<Flip, FlipRefusal>
    requires { Fits f.now i.now }
    ensures { Answers f.now i.now text.now result }
{
    let Some(flip) = said(text) else {
        return Err(FlipRefusal::Syntax);
    };
    let Some(array) = array_in(f.arrays.as_slice(), flip.array) else {
        return Err(FlipRefusal::UnknownArray);
    };
    if flip.cell >= given_cells(i, array) {
        return Err(FlipRefusal::CellOutside);
    }
    if flip.bit > 63 {
        return Err(FlipRefusal::BitOutside);
    }
    let Ok(array) = u32::try_from(array) else {
        return Err(FlipRefusal::OutOfMemory);
    };
    Ok(Flip {
        array,
        cell: flip.cell,
        bit: flip.bit as u8,
        place: flip.place,
    })
}

/// A text means one flip at most, and no two causes of refusals hold at once.
pub fn one_flip_answer()
    ensures { HasOneAnswer }
{}

/// Each text means a flip that fits, or is refused.
pub fn some_flip_answer()
    ensures { HasSomeAnswer }
{}

/// The text of a flip that fits is read back.
pub fn flip_is_read_back()
    ensures { IsReadBack }
{}

/// A flip fits a unit exactly where it fits by the unit's frame.
pub fn flips_fit_units()
    ensures { FlipsFitUnits }
{
    fits_as_frame();
}

/// There is a flip that meets all that is asked of one.
pub fn sample_meets_conditions()
    ensures { IsSample }
{}
