//! Why a data file is refused.

ghost use Rattle.std.specs.Prelude.{◌≡◌};
ghost use Rattle.data_file.specs.declared.refusal.DataRefusal.{DataRefusal};

use c_tree::OutOfMemory;
use std::alloc::{AllocError, AllocFailed};
use thiserror::Error;

/// Why a data file is refused. Parameters and arrays are numbered from 0 in declared order, and a
/// refusal carries the first at which it holds.
#[derive(Clone, Copy, Debug, PartialEq, Eq, Error)]
pub enum DataRefusal {
    /// A line is no row, or the row of a name that has one already, or a name has none. It carries the
    /// first bad line, from 1, or the number of lines plus 1 for a name without a row.
    #[error("I1 Syntax in line {line}")]
    Syntax { line: u64 },
    /// The value of a parameter is outside its range.
    #[error("I2 OutOfRange {parameter}")]
    OutOfRange { parameter: u64 },
    /// An array has more than 4,194,304 cells for these parameters.
    #[error("I3 TooLarge {array}")]
    TooLarge { array: u64 },
    /// The row of an array has another number of cells than the array.
    #[error("I4 WrongCells {array} {wanted} {given}")]
    WrongCells { array: u64, wanted: u64, given: u64 },
    #[error("out of memory")]
    OutOfMemory,
}

impl From<OutOfMemory> for DataRefusal {
    ghost from_gives = { λ _ refusal. refusal ≡ DataRefusal.OutOfMemory };

    fn from(_error: OutOfMemory) -> DataRefusal {
        DataRefusal::OutOfMemory
    }
}

impl From<AllocError> for DataRefusal {
    ghost from_gives = { λ _ refusal. refusal ≡ DataRefusal.OutOfMemory };

    fn from(_error: AllocError) -> DataRefusal {
        DataRefusal::OutOfMemory
    }
}

impl<T: Drop> From<AllocFailed<T>> for DataRefusal {
    ghost from_gives = { λ _ refusal. refusal ≡ DataRefusal.OutOfMemory };

    fn from(_error: AllocFailed<T>) -> DataRefusal {
        DataRefusal::OutOfMemory
    }
}
