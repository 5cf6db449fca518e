//! The line of a flip.

ghost use Rattle.std.specs.Prelude.{◌≡◌};
ghost use Rattle.fault_plan.specs.Reading as spec;
ghost use Rattle.fault_plan.specs.Seen.{Reads, plain};

use crate::pieces::{name_front, number_front, strip};
use text_pieces::decimal_number;

/// A flip that names its array.
#[derive(Clone, Copy, Debug)]
pub struct NamedFlip<'a> {
    pub array: &'a [u8],
    pub cell: u64,
    pub bit: u64,
    pub place: u64,
}

/// The number behind `at `.
#[tactic(auto, unfolding(crate::specs::Reading::place_of))]
fn place_of(text: &[u8]) -> Option<u64>
    ensures { result ≡ spec.place_of text.now }
{
    decimal_number(strip(b"at ", text)?)
}

/// The flip of a line `flip ARRAY CELL BIT at PLACE`.
#[tactic(auto, unfolding(crate::specs::Reading::line_of))]
pub fn line_of(line: &[u8]) -> Option<NamedFlip<'_>>
    ensures { Reads plain result (spec.line_of line.now) }
{
    let words = strip(b"flip ", line)?;
    let (array, cells) = name_front(words)?;
    let (cell, bits) = number_front(cells)?;
    let (bit, places) = number_front(bits)?;
    let place = place_of(places)?;
    Some(NamedFlip {
        array,
        cell,
        bit,
        place,
    })
}
