//! Which arrays are inspected: those of which some read has an index cell.

ghost use Rattle.std.specs.Prelude.{◌≡◌, not, nat_eq};
ghost use Rattle.c_tree.specs.Trees.{expr, exprs, stmt, stmts};
ghost use Rattle.instrumentation.specs.Inspects as inspects;
ghost use Rattle.instrumentation.specs.Subscripts.{indices_in};
ghost use Rattle.text_parts.specs.Numbered.{numbers};

use c_tree::{Expr, Exprs, Param, Stmt, Stmts};
use text_parts::number_of;

/// Whether some subscript is a cell.
fn has_index(at: &Exprs) -> bool
    ensures { result ≡ not (nat_eq (indices_in (exprs at.now)) 0) }
{
    for e in at.as_slice() {
        if let Expr::Cell(_, _) = e {
            return true;
        }
    }
    false
}

/// Whether an expression has such a read of an array.
fn reads_irregularly(params: &[Param], array: u64, e: &Expr) -> bool
    ensures { result ≡ inspects.read_irregularly (numbers params.now) array (expr e.now) }
{
    match e {
        Expr::Cell(name, at) => number_of(params, name) == array && has_index(at),
        Expr::Un(_, a) | Expr::Cast(a) => reads_irregularly(params, array, a),
        Expr::Bin(_, a, b) | Expr::Test(_, a, b) | Expr::Min(a, b) | Expr::Max(a, b) => {
            reads_irregularly(params, array, a) || reads_irregularly(params, array, b)
        }
        Expr::Lit(_)
        | Expr::Var(_)
        | Expr::Least(_, _)
        | Expr::Greatest(_, _)
        | Expr::Widen(_)
        | Expr::Big(_, _) => false,
    }
}

/// Whether a statement has one.
#[cycle(inspects)]
fn is_inspected_in(params: &[Param], array: u64, s: &Stmt) -> bool
    ensures { result ≡ inspects.inspects (numbers params.now) array (stmt s.now) }
{
    match s {
        Stmt::For { body, .. } => is_inspected(params, array, body),
        Stmt::If { then, other, .. } => {
            is_inspected(params, array, then) || is_inspected(params, array, other)
        }
        Stmt::Assign {
            op: None,
            value,
            ..
        } => reads_irregularly(params, array, value),
        Stmt::Assign { target, value, .. } => {
            reads_irregularly(params, array, target) || reads_irregularly(params, array, value)
        }
        Stmt::Table { .. } | Stmt::Begin | Stmt::Check { .. } | Stmt::Verdict => false,
    }
}

/// Whether the array of this number is inspected in a list of statements.
#[cycle(inspects)]
pub fn is_inspected(params: &[Param], array: u64, body: &Stmts) -> bool
    ensures { result ≡ inspects.inspects_all (numbers params.now) array (stmts body.now) }
{
    for s in body.as_slice() {
        if is_inspected_in(params, array, s) {
            return true;
        }
    }
    false
}
