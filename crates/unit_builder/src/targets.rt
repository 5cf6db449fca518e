//! The assignments of a source by their numbers.

ghost use Rattle.std.specs.Prelude.{◌≡◌, ◌<◌, ◌^◌, None, Some, MatchOption};
ghost use Rattle.c_tree.specs.Trees.{expr, stmt, stmts};
ghost use Rattle.c_tree.specs.Instances.{sites, sites_all};
ghost use Rattle.unit_builder.specs.Parts as parts;

use c_tree::{Expr, Stmt, Stmts};
use text_parts::{count_sites, count_sites_of_all};

/// The target of the assignment of this number in a statement.
#[cycle(target_in)]
fn target_in(s: &Stmt, number: usize) -> Option<&Expr>
    requires { sites (stmt s.now) < 2 ^ 64 }
    ensures { MatchOption result (parts.target_in (stmt s.now) number ≡ None)
        (λ target. parts.target_in (stmt s.now) number ≡ Some (expr target.now)) }
{
    match s {
        Stmt::For { body, .. } => target_among(body, number),
        Stmt::If { then, other, .. } => {
            let before = count_sites_of_all(then);
            if number < before {
                target_among(then, number)
            } else {
                target_among(other, number - before)
            }
        }
        Stmt::Assign { target, .. } => if number == 0 { Some(target) } else { None },
        Stmt::Table { .. } | Stmt::Begin | Stmt::Check { .. } | Stmt::Verdict => None,
    }
}

/// The target of the assignment of this number in a list.
#[cycle(target_in)]
pub fn target_among(body: &Stmts, number: usize) -> Option<&Expr>
    requires { sites_all (stmts body.now) < 2 ^ 64 }
    ensures { MatchOption result (parts.target_among (stmts body.now) number ≡ None)
        (λ target. parts.target_among (stmts body.now) number ≡ Some (expr target.now)) }
{
    let mut left = number;
    for s in body.as_slice() {
        let count = count_sites(s);
        if left < count {
            return target_in(s, left);
        }
        left -= count;
    }
    None
}
