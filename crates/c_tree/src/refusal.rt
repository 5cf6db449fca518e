//! Why a source or a printed text is refused.

ghost use Rattle.std.specs.Prelude.{◌≡◌};
ghost use Rattle.c_tree.specs.declared.refusal.Refusal.{Refusal};

use crate::memory::OutOfMemory;
use std::alloc::{AllocError, AllocFailed};
use std::fmt;
use thiserror::Error;

/// What there is too much of.
#[derive(Clone, Copy, Debug, PartialEq, Eq)]
pub enum Counted {
    Parameters,
    Arrays,
    Scalars,
    Depth,
    Statements,
    Reads,
}

impl fmt::Display for Counted {
    ghost use Rattle.std.specs.Prelude.{Some};
    ghost use Rattle.c_tree.specs.Counted.{counted_word};

    ghost output = { λ counted. Some (counted_word counted) };

    fn fmt<W: fmt::Write>(&self, f: &mut fmt::Formatter<W>) -> fmt::Result {
        match self {
            Counted::Parameters => f.write_str("parameters"),
            Counted::Arrays => f.write_str("arrays"),
            Counted::Scalars => f.write_str("scalars"),
            Counted::Depth => f.write_str("depth"),
            Counted::Statements => f.write_str("statements"),
            Counted::Reads => f.write_str("reads"),
        }
    }
}

/// Why a text is refused. An item is the head, which is 0, or a loop, an `if` or an assignment, and in
/// a printed text a table, a check or the verdict too, counted in text order from 1. A refusal carries
/// the least item at which it holds.
#[derive(Clone, Copy, Debug, PartialEq, Eq, Error)]
pub enum Refusal {
    /// The text has more than 16,777,216 bytes. It carries how many.
    #[error("S1 TextTooLong")]
    TextTooLong {
        length: u64,
    },
    /// No token begins at this byte, counted from 0, the first such.
    #[error("S2 Lexical at byte {byte}")]
    Lexical {
        byte: u32,
    },
    /// The tokens are no unit. It carries the first byte of a token, or the text's length.
    #[error("S3 Syntax at byte {byte}")]
    Syntax {
        byte: u32,
    },
    /// A name is declared twice where only one may be in scope.
    #[error("S4 NameTwice in item {item}")]
    NameTwice {
        item: u32,
    },
    /// A used name isn't in scope.
    #[error("S5 NameUnknown in item {item}")]
    NameUnknown {
        item: u32,
    },
    /// A declared name is kept for the printed text or for C.
    #[error("S6 ReservedName in item {item}")]
    ReservedName {
        item: u32,
    },
    /// An `int64_t` parameter hasn't exactly one range line, or a line's range is none.
    #[error("S7 BadRange in item {item}")]
    BadRange {
        item: u32,
    },
    /// A count is over its limit.
    #[error("S8 TooMany {counted} {count} in item {item}")]
    TooMany {
        counted: Counted,
        count: u64,
        item: u32,
    },
    /// An expression isn't affine, where only an affine one may stand.
    #[error("S9 NotAffine in item {item}")]
    NotAffine {
        item: u32,
    },
    /// A constant or a coefficient of an affine expression is outside -2^20 to 2^20.
    #[error("S10 CoefficientTooLarge in item {item}")]
    CoefficientTooLarge {
        item: u32,
    },
    /// The interval of an affine expression isn't within -2^62 to 2^62.
    #[error("S11 IntervalTooWide in item {item}")]
    IntervalTooWide {
        item: u32,
    },
    /// The interval of an extent begins below 1.
    #[error("S12 ExtentNotPositive in item {item}")]
    ExtentNotPositive {
        item: u32,
    },
    /// A name has another number of subscripts than extents.
    #[error("S13 WrongDimensions in item {item}")]
    WrongDimensions {
        item: u32,
    },
    /// The target of an assignment may not be written.
    #[error("S14 WriteToConst in item {item}")]
    WriteToConst {
        item: u32,
    },
    /// An index array isn't `const`, or is the array that it subscripts.
    #[error("S15 BadIndexArray in item {item}")]
    BadIndexArray {
        item: u32,
    },
    /// A shift amount isn't a literal 0 to 63, or a divisor isn't a nonzero literal.
    #[error("S16 BadLiteral in item {item}")]
    BadLiteral {
        item: u32,
    },
    /// A written cell has a subscript that is a cell.
    #[error("S17 IrregularWrite in item {item}")]
    IrregularWrite {
        item: u32,
    },
    /// In a printed text, a name or an expression of a kind that its place doesn't take.
    #[error("S18 WrongKind in item {item}")]
    WrongKind {
        item: u32,
    },
    #[error("out of memory")]
    OutOfMemory,
}

impl From<OutOfMemory> for Refusal {
    ghost from_gives = { λ _ refusal. refusal ≡ Refusal.OutOfMemory };

    fn from(_error: OutOfMemory) -> Refusal {
        Refusal::OutOfMemory
    }
}

impl From<AllocError> for Refusal {
    ghost from_gives = { λ _ refusal. refusal ≡ Refusal.OutOfMemory };

    fn from(_error: AllocError) -> Refusal {
        Refusal::OutOfMemory
    }
}

impl<T: Drop> From<AllocFailed<T>> for Refusal {
    ghost from_gives = { λ _ refusal. refusal ≡ Refusal.OutOfMemory };

    fn from(_error: AllocFailed<T>) -> Refusal {
        Refusal::OutOfMemory
    }
}
