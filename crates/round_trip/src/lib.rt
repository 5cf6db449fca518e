//! What is printed of a unit is parsed to this unit again.
#![tactic(auto)]

ghost use Rattle.std.specs.Prelude.{◌≤◌, List, ℕ, length};
ghost use Rattle.c_tree.specs.Grammar.Texts.{IsText};
ghost use Rattle.c_tree.specs.Layout.{layout};
ghost use Rattle.c_tree.specs.Trees.{unit as unit_in};
ghost use Rattle.c_parser.specs.Answers.{IsUnless};

use c_parser::parse;
use c_printer::print;
use c_tree::{OutOfMemory, Refusal, Unit};
use layout_laws::layout_is_read;
use std::alloc::Global;

/// Prints a unit and parses what was printed. A unit of the grammar, which is one that some text has, comes back, if
/// its text isn't too long.
pub fn printed_and_parsed(alloc: Global, unit: &Unit) -> Result<Unit, Refusal>
    ensures { (text : List ℕ) → IsText text (unit_in unit.now)
        → length (layout (unit_in unit.now)) ≤ 16777216 → IsUnless (unit_in unit.now) result }
{
    layout_is_read();
    match print(alloc, unit) {
        Ok(text) => parse(alloc, text.as_slice()),
        Err(OutOfMemory) => Err(Refusal::OutOfMemory),
    }
}
