//! Rows of a data file.

ghost use Rattle.std.specs.Prelude.{◌≡◌, IfOk};
ghost use Rattle.data_file.specs.Reading as spec;
ghost use Rattle.data_file.specs.Seen.{listed};

use crate::cells::cells_of;
use crate::front::parted;
use crate::names::place_in;
use crate::number::int_of;
use c_tree::{ArrayCells, OutOfMemory};
use indexmap::IndexSet;
use std::alloc::Global;

/// What the row of a name carries.
#[derive(Debug, Drop)]
pub enum Row {
    Value(i64),
    Cells(ArrayCells),
}

/// What the text behind the name of this number carries, a parameter being one of the first so many.
#[tactic(auto, unfolding(crate::specs::Reading::row_of))]
fn row_of(
    alloc: Global,
    parameters: usize,
    place: usize,
    text: &[u8],
) -> Result<Option<Row>, OutOfMemory>
    ensures { IfOk result (λ row. row ≡ spec.row_of parameters place text.now) }
{
    if place < parameters {
        Ok(int_of(text).map(Row::Value))
    } else {
        Ok(cells_of(alloc, text)?.map(Row::Cells))
    }
}

/// The number of the name whose row the line is, and what it carries.
#[tactic(auto, unfolding(crate::specs::Reading::row_at))]
pub fn row_at(
    alloc: Global,
    parameters: usize,
    names: &IndexSet<&[u8]>,
    line: &[u8],
) -> Result<Option<(usize, Row)>, OutOfMemory>
    ensures { IfOk result (λ found. found ≡ spec.row_at parameters (listed names.entry.now.keys) line.now) }
{
    let Some((name, text)) = parted(line) else {
        return Ok(None);
    };
    let Some(place) = place_in(names, name) else {
        return Ok(None);
    };
    let Some(row) = row_of(alloc, parameters, place, text)? else {
        return Ok(None);
    };
    Ok(Some((place, row)))
}
