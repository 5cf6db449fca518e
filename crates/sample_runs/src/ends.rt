//! What is asked of the end of a run.

use c_tree::{Ended, Verdict};

/// A verdict, with the numbers of the arrays that it names.
#[derive(Clone, Copy, PartialEq, Eq)]
pub enum Found {
    Plain,
    Balanced,
    Fault(&'static [u32]),
    Index(u32),
    Outside(u32),
}

pub fn has_verdict(ended: &Ended, wanted: Found) -> bool {
    match (&ended.verdict, wanted) {
        (Verdict::Plain, Found::Plain) | (Verdict::Balanced, Found::Balanced) => true,
        (Verdict::Fault(arrays), Found::Fault(others)) => arrays.as_slice() == others,
        (Verdict::Index(array), Found::Index(other)) => *array == other,
        (Verdict::Outside(array), Found::Outside(other)) => *array == other,
        _ => false,
    }
}

/// The end of a run. A source has no totals, no tables and no turns of a prologue.
#[derive(Clone, Copy)]
pub struct End {
    pub verdict: Found,
    pub cells: &'static [&'static [u64]],
    pub totals: &'static [(u128, u128)],
    pub tables: &'static [u64],
    pub accesses: u128,
    pub prologue_turns: u128,
    pub body_turns: u128,
}

pub const PLAIN: End = End {
    verdict: Found::Plain,
    cells: &[],
    totals: &[],
    tables: &[],
    accesses: 0,
    prologue_turns: 0,
    body_turns: 0,
};

/// Whether the run ended so.
pub fn is_end(ended: &Ended, wanted: &End) -> bool {
    has_verdict(ended, wanted.verdict)
        && has_cells(ended, wanted.cells)
        && ended.totals.as_slice() == wanted.totals
        && ended.tables.as_slice() == wanted.tables
        && ended.accesses == wanted.accesses
        && ended.prologue_turns == wanted.prologue_turns
        && ended.body_turns == wanted.body_turns
}

/// Whether the arrays have these cells.
pub fn has_cells(ended: &Ended, wanted: &[&[u64]]) -> bool {
    if ended.arrays.len() != wanted.len() {
        return false;
    }
    for (array, cells) in ended.arrays.as_slice().iter().zip(wanted) {
        if array.as_slice() != *cells {
            return false;
        }
    }
    true
}
