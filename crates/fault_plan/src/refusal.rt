//! Why a flip file is refused.

use thiserror::Error;

/// Why a flip file is refused. The first of these that holds is answered.
#[derive(Clone, Copy, Debug, PartialEq, Eq, Error)]
pub enum FlipRefusal {
    /// The text isn't one line `flip ARRAY CELL BIT at PLACE`, or a number is 2^64 or more.
    #[error("F1 Syntax")]
    Syntax,
    /// No array has the name.
    #[error("F2 UnknownArray")]
    UnknownArray,
    /// The array has no cell of this number.
    #[error("F3 CellOutside")]
    CellOutside,
    /// The bit is over 63.
    #[error("F4 BitOutside")]
    BitOutside,
    /// The number of the array has no room in a flip.
    #[error("out of memory")]
    OutOfMemory,
}
