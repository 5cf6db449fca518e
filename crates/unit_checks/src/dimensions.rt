//! S13: a name with another number of subscripts than it takes.

ghost use Rattle.std.specs.Prelude.{◌≡◌, ◌&&◌, IfOk, not, length, nat_eq};
ghost use Rattle.std.specs.List.{list_all};
ghost use Rattle.c_tree.specs.Names.{words};
ghost use Rattle.c_tree.specs.Trees.{expr, exprs, stmt, tests};
ghost use Rattle.acceptance.specs.Head.{list_of};
ghost use Rattle.acceptance.specs.Printed as printed;
ghost use Rattle.scopes.specs.Scopes.{scope_in};

use crate::totals::total_names;
use c_tree::{Expr, Exprs, Name, OutOfMemory, Stmt, Tests};
use scopes::Scope;
use std::alloc::Global;

/// Whether a name takes so many subscripts.
fn takes(sc: &Scope<'_, '_>, x: &Name, at: &Exprs) -> bool
    ensures { result ≡ nat_eq (printed.dimensions (scope_in sc.now) x.now.bytes) (length (list_of (exprs at.now))) }
{
    sc.dimensions(x) == at.len()
}

#[cycle(fits)]
fn fits(sc: &Scope<'_, '_>, e: &Expr) -> bool
    ensures { result ≡ printed.fits_dimensions (printed.dimensions (scope_in sc.now)) (expr e.now) }
{
    match e {
        Expr::Lit(_) => true,
        Expr::Var(x) => sc.dimensions(x) == 0,
        Expr::Cell(x, at) => takes(sc, x, at) && all_fit(sc, at),
        Expr::Un(_, a) => fits(sc, a),
        Expr::Bin(_, a, b) => fits(sc, a) && fits(sc, b),
        Expr::Cast(a) => fits(sc, a),
        Expr::Test(_, a, b) => fits(sc, a) && fits(sc, b),
        Expr::Min(a, b) => fits(sc, a) && fits(sc, b),
        Expr::Max(a, b) => fits(sc, a) && fits(sc, b),
        Expr::Least(a, b) => fits(sc, a) && fits(sc, b),
        Expr::Greatest(a, b) => fits(sc, a) && fits(sc, b),
        Expr::Widen(a) => fits(sc, a),
        Expr::Big(_, _) => true,
    }
}

#[cycle(fits)]
fn all_fit(sc: &Scope<'_, '_>, es: &Exprs) -> bool
    ensures { result ≡ printed.all_fit_dimensions (printed.dimensions (scope_in sc.now)) (exprs es.now) }
{
    for e in es.as_slice() {
        if !fits(sc, e) {
            return false;
        }
    }
    true
}

fn tests_fit(sc: &Scope<'_, '_>, ts: &Tests) -> bool
    ensures { result ≡ printed.tests_fit (printed.fits_dimensions (printed.dimensions (scope_in sc.now))) (tests ts.now) }
{
    for (_, a, b) in ts.as_slice() {
        if !(fits(sc, a) && fits(sc, b)) {
            return false;
        }
    }
    true
}

fn exprs_fit(sc: &Scope<'_, '_>, s: &Stmt) -> bool
    ensures { result ≡ printed.exprs_fit (printed.fits_dimensions (printed.dimensions (scope_in sc.now))) (stmt s.now) }
{
    match s {
        Stmt::For { lo, hi, .. } => fits(sc, lo) && fits(sc, hi),
        Stmt::If { tests, .. } => tests_fit(sc, tests),
        Stmt::Assign { target, value, .. } => fits(sc, target) && fits(sc, value),
        Stmt::Table { length, .. } => fits(sc, length),
        Stmt::Begin => true,
        Stmt::Check { extent, .. } => fits(sc, extent),
        Stmt::Verdict => true,
    }
}

fn are_bare(sc: &Scope<'_, '_>, names: &[Name]) -> bool
    ensures { result ≡ list_all (λ x. nat_eq (printed.dimensions (scope_in sc.now) x) 0) (words names.now) }
{
    for name in names {
        if sc.dimensions(name) != 0 {
            return false;
        }
    }
    true
}

fn names_fit(alloc: Global, sc: &Scope<'_, '_>, s: &Stmt) -> Result<bool, OutOfMemory>
    ensures { IfOk result (λ fit. fit ≡ printed.names_fit (scope_in sc.now) (stmt s.now)) }
{
    match s {
        Stmt::Check { value, .. } => Ok(sc.dimensions(value) == 0),
        Stmt::Verdict => {
            let names = total_names(alloc, sc.declared.unit.params.as_slice())?;
            Ok(are_bare(sc, names.as_slice()))
        }
        Stmt::For { .. } => Ok(true),
        Stmt::If { .. } => Ok(true),
        Stmt::Assign { .. } => Ok(true),
        Stmt::Table { .. } => Ok(true),
        Stmt::Begin => Ok(true),
    }
}

/// Whether a name stands in an item with another number of subscripts than it takes.
pub fn has_wrong_dimensions(
    alloc: Global,
    sc: &Scope<'_, '_>,
    s: &Stmt,
) -> Result<bool, OutOfMemory>
    ensures { IfOk result (λ found. found ≡ not (printed.exprs_fit (printed.fits_dimensions (printed.dimensions (scope_in sc.now))) (stmt s.now) && printed.names_fit (scope_in sc.now) (stmt s.now))) }
{
    Ok(!(names_fit(alloc, sc, s)? && exprs_fit(sc, s)))
}
