//! The classes of arrays.

/// The class of an array.
#[derive(Clone, Copy, Debug, PartialEq, Eq)]
pub enum Class {
    /// Bounds, conditions and subscripts around its sites are differences.
    Difference,
    /// No read of it is irregular.
    Counted,
    /// Some read of it has a cell as a subscript.
    Inspected,
}
