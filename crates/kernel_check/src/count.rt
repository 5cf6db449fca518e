//! How many items a unit has.

ghost use Rattle.std.specs.Prelude.{◌≡◌, ◌+◌, ◌^◌, ◌-◌, min, nat_lt, length, []};
ghost use Rattle.c_tree.specs.Trees.{stmt, stmts};
ghost use Rattle.acceptance.specs.Items.{items_all};
ghost use Rattle.kernel_check.specs.Items.{items_in, all_items_in};

use c_tree::{Stmt, Stmts};

#[cycle(count)]
fn count(s: &Stmt) -> u32
    ensures { result ≡ min (items_in (stmt s.now)) (2 ^ 32 - 1) }
{
    match s {
        Stmt::Begin => 0,
        Stmt::For { body, .. } => count_all(body).saturating_add(1),
        Stmt::If { then, other, .. } => count_all(then)
            .saturating_add(count_all(other))
            .saturating_add(1),
        _ => 1,
    }
}

#[cycle(count)]
fn count_all(body: &Stmts) -> u32
    ensures { result ≡ min (all_items_in (stmts body.now)) (2 ^ 32 - 1) }
{
    let mut sum: u32 = 0;
    for s in body.as_slice() {
        sum = sum.saturating_add(count(s));
    }
    sum
}

/// Whether items can be numbered: there are fewer than 2^31 - 1.
pub fn has_few_items(body: &Stmts) -> bool
    ensures { result ≡ nat_lt (1 + length (items_all (stmts body.now) [] [])) (2 ^ 31) }
{
    count_all(body) < 2147483647
}
