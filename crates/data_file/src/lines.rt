//! The lines of a data file.

ghost use Rattle.std.specs.Prelude.{◌≡◌, ◌+◌, length, replicate, None, Some, IfOk, MatchBool};
ghost use Rattle.std.specs.Str.Lines.{lines};
ghost use Rattle.data_file.specs.Conditions.{HasOwnNames};
ghost use Rattle.data_file.specs.Outcome.{Finds};
ghost use Rattle.data_file.specs.Reading as spec;
ghost use Rattle.data_file.specs.Seen.{listed};

use crate::front::{is_blank, split_line};
use crate::names::names_of;
use crate::refusal::DataRefusal;
use crate::row::{Row, row_at};
use crate::slots::{inputs_of, no_rows, store};
use c_tree::{Frame, Inputs, OutOfMemory};
use indexmap::IndexSet;
use std::alloc::Global;

/// Puts the row of a line into its slot. It says whether the line is blank or a row whose slot was
/// empty.
#[tactic(auto, unfolding(crate::specs::Reading::with_line))]
fn take_line(
    alloc: Global,
    parameters: usize,
    names: &IndexSet<&[u8]>,
    slots: &mut Vec<Option<Row>>,
    line: &[u8],
) -> Result<bool, OutOfMemory>
    ensures { IfOk result (λ good. MatchBool good
        (spec.with_line parameters (listed names.entry.now.keys) slots.old.items line.now ≡ Some slots.new.items)
        (spec.with_line parameters (listed names.entry.now.keys) slots.old.items line.now ≡ None)) }
{
    if is_blank(line) {
        return Ok(true);
    }
    let Some((place, row)) = row_at(alloc, parameters, names, line)? else {
        return Ok(false);
    };
    Ok(store(slots, place, row))
}

/// The inputs that the text carries.
pub fn read_inputs(alloc: Global, f: &Frame, text: &[u8]) -> Result<Inputs, DataRefusal>
    requires { HasOwnNames f.now }
    ensures { Finds result (spec.inputs_in f.now (lines text.now)) }
{
    let names = names_of(alloc, f)?;
    let mut slots = no_rows(alloc, names.len())?;
    let mut rest = text;
    let mut number = 0;
    while !rest.is_empty() {
        let (line, behind) = split_line(rest);
        number += 1;
        if !take_line(alloc, f.ints.len(), &names, &mut slots, line)? {
            return Err(DataRefusal::Syntax { line: number });
        }
        rest = behind;
    }
    inputs_of(alloc, slots)?.ok_or(DataRefusal::Syntax { line: number + 1 })
}
