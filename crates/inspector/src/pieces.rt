//! What the inspection of an array makes.

use c_tree::Stmts;

/// Three lists of statements.
#[derive(Drop)]
pub struct Inspection {
    /// Makes the two tables of the array, before the cells of any array are read.
    pub build: Stmts,
    /// Sets the count to the uses of the initial cell at the coordinates of the prologue.
    pub initial: Stmts,
    /// Sets the count to the uses of the definition that the next write of the array makes.
    pub at_write: Stmts,
}
