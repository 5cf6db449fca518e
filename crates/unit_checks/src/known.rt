//! S5: a name that isn't in scope.

ghost use Rattle.std.specs.Prelude.{◌≡◌, IfOk, map, not, [], bytes_eq};
ghost use Rattle.std.specs.List.{list_all};
ghost use Rattle.c_tree.specs.Names.{words};
ghost use Rattle.c_tree.specs.Plain.{int_param};
ghost use Rattle.c_tree.specs.Trees.{expr, exprs, param, stmt, tests};
ghost use Rattle.acceptance.specs.Items as items;
ghost use Rattle.acceptance.specs.Head as head;
ghost use Rattle.acceptance.specs.Printed as printed;
ghost use Rattle.scopes.specs.Scopes.{declared_in, scope_in};
ghost use Rattle.unit_checks.specs.Known.{known_in};

use crate::totals::total_names;
use c_tree::{Expr, Exprs, Name, OutOfMemory, Param, Stmt, Tests};
use scopes::{Declared, NameSet, Scope};
use std::alloc::Global;

/// What may be named: what is in scope at an item, and in an extent the `int64_t` parameters before it.
#[derive(Clone, Copy)]
pub enum Known<'a, 'n> {
    Around(&'a Scope<'a, 'n>),
    Before(&'a NameSet<'n>),
}

fn is_known(known: Known<'_, '_>, name: &Name) -> bool
    ensures { result ≡ items.is_known (known_in known.entry) name.now.bytes }
{
    match known {
        Known::Around(sc) => sc.is_known(name),
        Known::Before(names) => names.contains(name),
    }
}

#[cycle(known)]
fn uses_known(known: Known<'_, '_>, e: &Expr) -> bool
    ensures { result ≡ head.uses_known (known_in known.entry) (expr e.now) }
{
    match e {
        Expr::Lit(_) => true,
        Expr::Var(x) => is_known(known, x),
        Expr::Cell(x, at) => is_known(known, x) && all_use_known(known, at),
        Expr::Un(_, a) => uses_known(known, a),
        Expr::Bin(_, a, b) => uses_known(known, a) && uses_known(known, b),
        Expr::Cast(a) => uses_known(known, a),
        Expr::Test(_, a, b) => uses_known(known, a) && uses_known(known, b),
        Expr::Min(a, b) => uses_known(known, a) && uses_known(known, b),
        Expr::Max(a, b) => uses_known(known, a) && uses_known(known, b),
        Expr::Least(a, b) => uses_known(known, a) && uses_known(known, b),
        Expr::Greatest(a, b) => uses_known(known, a) && uses_known(known, b),
        Expr::Widen(a) => uses_known(known, a),
        Expr::Big(_, _) => true,
    }
}

#[cycle(known)]
fn all_use_known(known: Known<'_, '_>, es: &Exprs) -> bool
    ensures { result ≡ head.all_use_known (known_in known.entry) (exprs es.now) }
{
    for e in es.as_slice() {
        if !uses_known(known, e) {
            return false;
        }
    }
    true
}

fn tests_use_known(known: Known<'_, '_>, ts: &Tests) -> bool
    ensures { result ≡ printed.tests_use_known (known_in known.entry) (tests ts.now) }
{
    for (_, a, b) in ts.as_slice() {
        if !(uses_known(known, a) && uses_known(known, b)) {
            return false;
        }
    }
    true
}

fn are_known(sc: &Scope<'_, '_>, names: &[Name]) -> bool
    ensures { result ≡ list_all (items.is_known (scope_in sc.now)) (words names.now) }
{
    for name in names {
        if !sc.is_known(name) {
            return false;
        }
    }
    true
}

/// Whether an item uses a name that isn't in scope.
pub fn has_unknown_name(alloc: Global, sc: &Scope<'_, '_>, s: &Stmt) -> Result<bool, OutOfMemory>
    ensures { IfOk result (λ found. found ≡ not (printed.item_uses_known (scope_in sc.now) (stmt s.now))) }
{
    let known = Known::Around(sc);
    match s {
        Stmt::For { lo, hi, .. } => Ok(!(uses_known(known, lo) && uses_known(known, hi))),
        Stmt::If { tests, .. } => Ok(!tests_use_known(known, tests)),
        Stmt::Assign { target, value, .. } => {
            Ok(!(uses_known(known, target) && uses_known(known, value)))
        }
        Stmt::Table { length, .. } => Ok(!uses_known(known, length)),
        Stmt::Begin => Ok(false),
        Stmt::Check { value, extent, .. } => Ok(!(sc.is_known(value) && uses_known(known, extent))),
        Stmt::Verdict => {
            let names = total_names(alloc, sc.declared.unit.params.as_slice())?;
            Ok(!are_known(sc, names.as_slice()))
        }
    }
}

fn uses_before(before: &NameSet<'_>, es: &Exprs) -> bool
    ensures { result ≡ head.all_use_known (head.ints_scope (map int_param before.now)) (exprs es.now) }
{
    let known = Known::Before(before);
    all_use_known(known, es)
}

fn extents_known(alloc: Global, params: &[Param]) -> Result<bool, OutOfMemory>
    ensures { IfOk result (λ fine. fine ≡ head.extents_known [] (map param params.now)) }
{
    let mut before = NameSet::new(alloc);
    for p in params {
        match p {
            Param::Int(name) => before.add(name)?,
            Param::Array { extents, .. } => {
                if !uses_before(&before, extents) {
                    return Ok(false);
                }
            }
        }
    }
    Ok(true)
}

/// Whether an extent uses a name that is no `int64_t` parameter before it.
pub fn head_has_unknown_name(alloc: Global, declared: &Declared<'_>) -> Result<bool, OutOfMemory>
    ensures { IfOk result (λ found. found ≡ not (head.extents_known [] (declared_in declared.now).params)) }
{
    Ok(!extents_known(alloc, declared.unit.params.as_slice())?)
}
