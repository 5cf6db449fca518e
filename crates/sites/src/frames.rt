//! What stands around a place.

use c_tree::{Expr, Name, Rel, Tests};

/// The loops and branches around a place, the innermost first: a loop with its variable and bounds, or an `if` with
/// whether the place stands in its first branch.
#[derive(Clone, Copy)]
pub enum Frames<'a> {
    Outside,
    InLoop(&'a Name, &'a Expr, Rel, &'a Expr, &'a Frames<'a>),
    InBranch(bool, &'a Tests, &'a Frames<'a>),
}
