//! Where the counted definition is made.

use c_tree::Site;

/// The definition that a pass counts.
#[derive(Clone, Copy, Debug)]
pub enum Start {
    /// The initial cell at the coordinates of the prologue.
    Cell,
    /// The write of this site at the values of the loops around it.
    Write(Site),
}
