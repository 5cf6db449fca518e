//! The cells of an array.

ghost use Rattle.std.specs.Prelude.{◌≡◌, IfOk};
ghost use Rattle.data_file.specs.Reading as spec;

use crate::front::{behind_gap, split_solid};
use c_tree::{ArrayCells, OutOfMemory};
use sqlite_items::Items;
use std::alloc::Global;
use text_pieces::decimal_number;

/// The numbers that the text writes, set apart by spaces and tabs.
pub fn cells_of(alloc: Global, text: &[u8]) -> Result<Option<ArrayCells>, OutOfMemory>
    ensures { IfOk result (λ cells. cells ≡ spec.cells_of text.now) }
{
    let mut cells = Items::new(alloc);
    let mut rest = text;
    for _turn in 0..text.len() {
        let (digits, behind) = split_solid(rest);
        let Some(cell) = decimal_number(digits) else {
            return Ok(None);
        };
        cells.push(cell)?;
        if behind.is_empty() {
            return Ok(Some(cells));
        }
        rest = behind_gap(behind);
    }
    Ok(None)
}
