//! What is asked of each affine part of an expression.

ghost use Rattle.std.specs.Prelude.{◌≡◌};
ghost use Rattle.std.specs.List.{list_all};
ghost use Rattle.c_tree.specs.Trees.{expr, exprs, tests};
ghost use Rattle.acceptance.specs.Head.{list_of};
ghost use Rattle.acceptance.specs.Parts as spec;
ghost use Rattle.acceptance.specs.Printed.{tests_fit};
ghost use Rattle.scopes.specs.Scopes.{scope_in};
ghost use Rattle.affine_checks.specs.Demands.{meets as meets_demand};
ghost use Rattle.affine_checks.specs.Shown.{intervals_at};

use crate::affine::{has_signed, is_affine};
use crate::demand::Demand;
use crate::narrow::is_narrow;
use crate::small::has_small_terms;
use c_tree::{Expr, Exprs, Tests};
use scopes::Scope;

/// Whether an expression meets the demand.
pub fn meets(demand: Demand, sc: &Scope<'_, '_>, e: &Expr) -> bool
    ensures { result ≡ meets_demand demand (scope_in sc.now) (intervals_at sc.now) (expr e.now) }
{
    match demand {
        Demand::Affine => is_affine(sc, e),
        Demand::Small => has_small_terms(sc, e),
        Demand::Narrow => is_narrow(sc, e),
    }
}

/// Whether each of them meets the demand.
pub fn all_meet(demand: Demand, sc: &Scope<'_, '_>, es: &Exprs) -> bool
    ensures { result ≡ list_all (meets_demand demand (scope_in sc.now) (intervals_at sc.now)) (list_of (exprs es.now)) }
{
    for e in es.as_slice() {
        if !meets(demand, sc, e) {
            return false;
        }
    }
    true
}

fn subscript_meets(demand: Demand, sc: &Scope<'_, '_>, e: &Expr) -> bool
    ensures { result ≡ spec.subscript_holds (meets_demand demand (scope_in sc.now) (intervals_at sc.now)) (expr e.now) }
{
    match e {
        Expr::Cell(_, at) => all_meet(demand, sc, at),
        _ => meets(demand, sc, e),
    }
}

fn subscripts_meet(demand: Demand, sc: &Scope<'_, '_>, es: &Exprs) -> bool
    ensures { result ≡ spec.subscripts_hold (meets_demand demand (scope_in sc.now) (intervals_at sc.now)) (exprs es.now) }
{
    for e in es.as_slice() {
        if !subscript_meets(demand, sc, e) {
            return false;
        }
    }
    true
}

/// Whether each affine part of a data expression meets the demand.
pub fn parts_meet(demand: Demand, sc: &Scope<'_, '_>, e: &Expr) -> bool
    ensures { result ≡ spec.parts_hold (meets_demand demand (scope_in sc.now) (intervals_at sc.now)) (scope_in sc.now) (expr e.now) }
{
    match e {
        Expr::Lit(_) => true,
        Expr::Var(_) => true,
        Expr::Cell(_, at) => subscripts_meet(demand, sc, at),
        Expr::Un(_, a) => parts_meet(demand, sc, a),
        Expr::Bin(_, a, b) => parts_meet(demand, sc, a) && parts_meet(demand, sc, b),
        Expr::Cast(a) => if has_signed(sc, a) {
            meets(demand, sc, a)
        } else {
            parts_meet(demand, sc, a)
        },
        Expr::Test(_, a, b) => parts_meet(demand, sc, a) && parts_meet(demand, sc, b),
        Expr::Min(a, b) => parts_meet(demand, sc, a) && parts_meet(demand, sc, b),
        Expr::Max(a, b) => parts_meet(demand, sc, a) && parts_meet(demand, sc, b),
        Expr::Least(a, b) => parts_meet(demand, sc, a) && parts_meet(demand, sc, b),
        Expr::Greatest(a, b) => parts_meet(demand, sc, a) && parts_meet(demand, sc, b),
        Expr::Widen(a) => parts_meet(demand, sc, a),
        Expr::Big(_, _) => true,
    }
}

/// Whether each side of each comparison meets the demand.
pub fn sides_meet(demand: Demand, sc: &Scope<'_, '_>, ts: &Tests) -> bool
    ensures { result ≡ tests_fit (meets_demand demand (scope_in sc.now) (intervals_at sc.now)) (tests ts.now) }
{
    for (_, a, b) in ts.as_slice() {
        if !(meets(demand, sc, a) && meets(demand, sc, b)) {
            return false;
        }
    }
    true
}
