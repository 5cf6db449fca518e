//! S15: an index array that is not `const`, or that subscripts itself.

ghost use Rattle.std.specs.Prelude.{◌≡◌, not};
ghost use Rattle.c_tree.specs.Plain.{more_exprs, no_exprs};
ghost use Rattle.c_tree.specs.Trees.{expr, exprs, stmt};
ghost use Rattle.acceptance.specs.Parts as parts;
ghost use Rattle.acceptance.specs.Sources as sources;
ghost use Rattle.scopes.specs.Scopes.{scope_in};

use c_tree::{Expr, Exprs, Name, Stmt};
use scopes::Scope;

/// Whether this may be a subscript of an array: a cell only of another array that is `const`.
fn is_indexed(sc: &Scope<'_, '_>, x: &Name, e: &Expr) -> bool
    ensures { result ≡ sources.are_indexed (scope_in sc.now).params x.now.bytes (more_exprs (expr e.now) no_exprs) }
{
    match e {
        Expr::Cell(y, _) => sc.declared.is_const_array(y) && !x.same(y),
        _ => true,
    }
}

fn are_indexed(sc: &Scope<'_, '_>, x: &Name, es: &Exprs) -> bool
    ensures { result ≡ sources.are_indexed (scope_in sc.now).params x.now.bytes (exprs es.now) }
{
    for e in es.as_slice() {
        if !is_indexed(sc, x, e) {
            return false;
        }
    }
    true
}

fn cells_indexed(sc: &Scope<'_, '_>, e: &Expr) -> bool
    ensures { result ≡ parts.cells_hold (sources.are_indexed (scope_in sc.now).params) (expr e.now) }
{
    match e {
        Expr::Lit(_) => true,
        Expr::Var(_) => true,
        Expr::Cell(x, at) => are_indexed(sc, x, at),
        Expr::Un(_, a) => cells_indexed(sc, a),
        Expr::Bin(_, a, b) => cells_indexed(sc, a) && cells_indexed(sc, b),
        Expr::Cast(a) => cells_indexed(sc, a),
        Expr::Test(_, a, b) => cells_indexed(sc, a) && cells_indexed(sc, b),
        Expr::Min(a, b) => cells_indexed(sc, a) && cells_indexed(sc, b),
        Expr::Max(a, b) => cells_indexed(sc, a) && cells_indexed(sc, b),
        Expr::Least(a, b) => cells_indexed(sc, a) && cells_indexed(sc, b),
        Expr::Greatest(a, b) => cells_indexed(sc, a) && cells_indexed(sc, b),
        Expr::Widen(a) => cells_indexed(sc, a),
        Expr::Big(_, _) => true,
    }
}

/// Whether an assignment has a cell among the subscripts of an array whose own array is not `const` or is the same one.
pub fn has_bad_index_array(sc: &Scope<'_, '_>, s: &Stmt) -> bool
    ensures { result ≡ not (sources.assigned_cells_hold (sources.are_indexed (scope_in sc.now).params) (stmt s.now)) }
{
    match s {
        Stmt::Assign { target, value, .. } => {
            !(cells_indexed(sc, target) && cells_indexed(sc, value))
        }
        _ => false,
    }
}
