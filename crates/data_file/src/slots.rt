//! A slot for the row of each declared name.

ghost use Rattle.std.specs.Prelude.{◌≡◌, ◌+◌, length, replicate, None, Some, [], IfOk, MatchBool};
ghost use Rattle.data_file.specs.Reading as spec;

use crate::row::Row;
use c_tree::{Inputs, OutOfMemory};
use sqlite_items::Items;
use std::alloc::Global;

/// So many slots, each empty.
pub fn no_rows(alloc: Global, count: usize) -> Result<Vec<Option<Row>>, OutOfMemory>
    ensures { IfOk result (λ slots. slots.items ≡ replicate count None) }
{
    let mut slots = Vec::new(alloc);
    for _slot in 0..count {
        slots.push(None)?;
    }
    Ok(slots)
}

/// Puts the row into the slot, if that is empty, and says whether it was.
#[tactic(auto, unfolding(crate::specs::Reading::stored))]
pub fn store(slots: &mut Vec<Option<Row>>, place: usize, row: Row) -> bool
    ensures { MatchBool result (spec.stored slots.old.items place row ≡ Some slots.new.items) (spec.stored slots.old.items place row ≡ None) }
{
    let is_empty = matches!(slots.get(place), Some(None));
    if is_empty {
        slots[place] = Some(row);
    }
    is_empty
}

/// The inputs that the rows carry, if each slot has one.
pub fn inputs_of(alloc: Global, slots: Vec<Option<Row>>) -> Result<Option<Inputs>, OutOfMemory>
    ensures { IfOk result (λ inputs. inputs ≡ spec.inputs_from [] [] slots.items) }
{
    let mut slots = slots;
    slots.reverse();
    let mut ints = Items::new(alloc);
    let mut cells = Items::new(alloc);
    while let Some(slot) = slots.pop() {
        match slot {
            None => return Ok(None),
            Some(Row::Value(value)) => ints.push(value)?,
            Some(Row::Cells(row)) => cells.push(row)?,
        }
    }
    Ok(Some(Inputs { ints, cells }))
}
