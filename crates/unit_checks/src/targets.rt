//! S14: a write to what is constant. S17: a written cell with a subscript that is a cell.

ghost use Rattle.std.specs.Prelude.{◌≡◌, ◌||◌, not};
ghost use Rattle.c_tree.specs.Trees.{expr, exprs, stmt};
ghost use Rattle.acceptance.specs.Items as items;
ghost use Rattle.acceptance.specs.Parts as parts;
ghost use Rattle.acceptance.specs.Sources as sources;
ghost use Rattle.scopes.specs.Scopes.{scope_in};

use c_tree::{Expr, Exprs, Name, Stmt};
use scopes::Scope;

fn is_constant(sc: &Scope<'_, '_>, x: &Name) -> bool
    ensures { result ≡ (sources.is_const_array (scope_in sc.now).params x.now.bytes || (items.is_int (scope_in sc.now).params x.now.bytes || items.is_loop (scope_in sc.now).loops x.now.bytes)) }
{
    sc.declared.is_const_array(x) || sc.is_int(x) || sc.is_loop(x)
}

/// Whether an item writes to a `const` array, to an `int64_t` parameter or to the variable of a loop.
pub fn writes_to_const(sc: &Scope<'_, '_>, s: &Stmt) -> bool
    ensures { result ≡ sources.target_holds (λ x. sources.is_const_array (scope_in sc.now).params x || (items.is_int (scope_in sc.now).params x || items.is_loop (scope_in sc.now).loops x)) (stmt s.now) }
{
    match s {
        Stmt::Assign { target, .. } => match target {
            Expr::Var(x) => is_constant(sc, x),
            Expr::Cell(x, _) => is_constant(sc, x),
            _ => false,
        },
        _ => false,
    }
}

fn is_cell(e: &Expr) -> bool
    ensures { result ≡ parts.is_cell (expr e.now) }
{
    match e {
        Expr::Cell(_, _) => true,
        _ => false,
    }
}

fn are_regular(es: &Exprs) -> bool
    ensures { result ≡ parts.are_regular (exprs es.now) }
{
    for e in es.as_slice() {
        if is_cell(e) {
            return false;
        }
    }
    true
}

/// Whether an item writes a cell that has a subscript that is a cell.
pub fn has_irregular_write(s: &Stmt) -> bool
    ensures { result ≡ not (sources.writes_regular (stmt s.now)) }
{
    match s {
        Stmt::Assign {
            target: Expr::Cell(_, at),
            ..
        } => !are_regular(at),
        _ => false,
    }
}
