//! S18: an expression of a kind that its place doesn't take.

ghost use Rattle.std.specs.Prelude.{◌≡◌, IfOk, false, map, not};
ghost use Rattle.std.specs.List.{list_all};
ghost use Rattle.c_tree.specs.Names.{is_among, words};
ghost use Rattle.c_tree.specs.Trees.{expr, exprs, param, stmt, tests};
ghost use Rattle.acceptance.specs.Head.{head_scope, list_of};
ghost use Rattle.acceptance.specs.Printed as printed;
ghost use Rattle.scopes.specs.Scopes.{declared_in, scope_in};
ghost use Rattle.unit_checks.specs.Places.{names_in};

use crate::kinds::{Place, is_signed, is_signed_expr, is_test, is_wide_expr, is_word_expr};
use crate::totals::total_names;
use c_tree::{BinOp, Expr, Exprs, Name, OutOfMemory, Param, Stmt, Tests};
use scopes::{Declared, Scope};
use std::alloc::Global;

fn are_tests(sc: &Scope<'_, '_>, ts: &Tests) -> bool
    ensures { result ≡ list_all (printed.is_test (scope_in sc.now)) (tests ts.now) }
{
    for test in ts.as_slice() {
        if !is_test(sc, test) {
            return false;
        }
    }
    true
}

fn is_wide_op(op: Option<BinOp>) -> bool
    ensures { result ≡ printed.is_wide_op op }
{
    match op {
        None => true,
        Some(op) => match op {
            BinOp::Add => true,
            _ => false,
        },
    }
}

fn is_assignment(sc: &Scope<'_, '_>, target: &Expr, op: Option<BinOp>, value: &Expr) -> bool
    ensures { result ≡ printed.is_assignment (scope_in sc.now) (expr target.now) op (expr value.now) }
{
    match target {
        Expr::Var(x) => {
            sc.is_scalar(x) && is_word_expr(sc, value)
                || sc.is_wide(x) && is_wide_op(op) && is_wide_expr(sc, value)
        }
        Expr::Cell(_, _) => is_word_expr(sc, target) && is_word_expr(sc, value),
        _ => false,
    }
}

fn are_wide(sc: &Scope<'_, '_>, names: &[Name]) -> bool
    ensures { result ≡ list_all (is_among (scope_in sc.now).wides) (words names.now) }
{
    for name in names {
        if !sc.is_wide(name) {
            return false;
        }
    }
    true
}

/// Whether an item has an expression of a kind that its place doesn't take.
pub fn has_wrong_kind(alloc: Global, sc: &Scope<'_, '_>, s: &Stmt) -> Result<bool, OutOfMemory>
    ensures { IfOk result (λ found. found ≡ not (printed.has_kinds (scope_in sc.now) (stmt s.now))) }
{
    match s {
        Stmt::For { lo, hi, .. } => Ok(!(is_signed(sc, true, lo) && is_signed(sc, true, hi))),
        Stmt::If { tests, .. } => Ok(!are_tests(sc, tests)),
        Stmt::Assign { target, op, value } => Ok(!is_assignment(sc, target, *op, value)),
        Stmt::Table { length, .. } => Ok(!is_word_expr(sc, length)),
        Stmt::Begin => Ok(false),
        Stmt::Check { value, extent, .. } => {
            Ok(!(sc.is_scalar(value) && is_signed(sc, false, extent)))
        }
        Stmt::Verdict => {
            let names = total_names(alloc, sc.declared.unit.params.as_slice())?;
            Ok(!are_wide(sc, names.as_slice()))
        }
    }
}

fn list_signed(place: Place<'_, '_>, es: &Exprs) -> bool
    ensures { result ≡ list_all (printed.is_signed_expr (names_in place.entry) false) (list_of (exprs es.now)) }
{
    for e in es.as_slice() {
        if !is_signed_expr(place, false, e) {
            return false;
        }
    }
    true
}

fn extents_signed(place: Place<'_, '_>, params: &[Param]) -> bool
    ensures { result ≡ printed.extents_signed (names_in place.entry) (map param params.now) }
{
    for p in params {
        if let Param::Array { extents, .. } = p {
            if !list_signed(place, extents) {
                return false;
            }
        }
    }
    true
}

/// Whether an extent is not signed.
pub fn head_has_wrong_kind(declared: &Declared<'_>) -> bool
    ensures { result ≡ (printed.wrong_kind (declared_in declared.now)).head }
{
    let place = Place::Head(&*declared);
    !extents_signed(place, declared.unit.params.as_slice())
}
