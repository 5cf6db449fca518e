//! What stands around a place, with the numbers of items and variables.

use c_tree::{Expr, Name, Rel, Tests};

/// The loops and branches around a place, the innermost first: a loop with the number of its item, that of its variable,
/// the variable and the bounds, or an `if` with the number of its item and whether the place stands in its first branch.
#[derive(Clone, Copy)]
pub enum Outers<'a> {
    Outside,
    InLoop(u32, u32, &'a Name, &'a Expr, Rel, &'a Expr, &'a Outers<'a>),
    InBranch(u32, bool, &'a Tests, &'a Outers<'a>),
}
