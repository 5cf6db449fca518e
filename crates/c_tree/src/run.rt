//! What befalls a run, and how it ends.

ghost use Rattle.std.specs.Prelude.{◌≡◌, ◌<◌, ◌≤◌, ◌↔◌, length, slice_get, IfSome, IsTrue};
ghost use Rattle.c_tree.specs.Fault.{altered};

use crate::frame::Cells;
use sqlite_items::Items;
use std::marker::Model;

/// One change of memory: the bit of the cell, row-major, of the array, in declared order, is inverted
/// immediately before the access whose number is the place, or as the run ends where there is none.
#[derive(Clone, Copy, Debug, PartialEq, Eq)]
pub struct Flip {
    pub array: u32,
    pub cell: u64,
    pub bit: u8,
    pub place: u64,
}

impl Flip {
    /// The word with the bit inverted.
    pub fn apply(&self, word: u64) -> u64
        requires { self.now.bit ≤ 63 }
        ensures { result ≡ altered self.now.bit word }
    {
        word ^ (1 << self.bit)
    }
}

/// What a run found. Arrays are numbered from 0 in declared order.
#[derive(Drop)]
pub enum Verdict {
    /// A source ended.
    Plain,
    /// A printed text ended, and the totals of each array agree.
    Balanced,
    /// A printed text ended, and the totals of exactly these arrays differ.
    Fault(ArrayNumbers),
    /// A printed text met an index out of range for a read of this array.
    Index(u32),
    /// An access lay outside the extents of this array.
    Outside(u32),
}

pub type ArrayNumbers = Items<u32>;

/// The end of a run. A counter stays at 2^128 - 1 once there.
#[derive(Drop)]
pub struct Ended {
    pub verdict: Verdict,
    pub arrays: Cells,
    pub totals: Totals,
    pub accesses: u128,
    pub prologue_turns: u128,
    /// All turns of a source.
    pub body_turns: u128,
    pub tables: Lengths,
}

/// The length of each table that was made.
pub type Lengths = Items<u64>;

/// For each array, in declared order, its definition total and its use total, modulo 2^128.
#[derive(Drop)]
pub struct Totals {
    pairs: Vec<(u128, u128)>,
}

impl Model for Totals {
    ghost use Rattle.std.specs.Prelude.{List, ℕ};

    ghost Value = { List (ℕ × ℕ) };

    ghost view = { λ totals. totals.pairs.items };
}

impl Totals {
    pub fn from_vec(pairs: Vec<(u128, u128)>) -> Totals
        ensures { result ≡ pairs.items }
    {
        Totals { pairs }
    }

    pub fn into_vec(self) -> Vec<(u128, u128)>
        ensures { result.items ≡ self }
    {
        let Totals { pairs } = self;
        pairs
    }

    pub fn as_slice(&self) -> &[(u128, u128)]
        ensures { result.now ≡ self.now }
    {
        self.pairs.as_slice()
    }

    /// Whether the two totals of the array are equal.
    pub fn agree(&self, array: usize) -> bool
        requires { array < length self.now }
        ensures { IfSome (slice_get self.now array) (λ pair. IsTrue result ↔ (pair.0 ≡ pair.1)) }
    {
        let (definition, uses) = self.pairs[array];
        definition == uses
    }
}
