//! The refusals at an item, and the interval of a loop's variable.

ghost use Rattle.std.specs.Prelude.{◌≡◌, ◌&&◌, not, true};
ghost use Rattle.c_tree.specs.Trees.{expr, stmt};
ghost use Rattle.acceptance.specs.Affine as affine;
ghost use Rattle.acceptance.specs.Head.{intervals_of};
ghost use Rattle.acceptance.specs.Parts as spec;
ghost use Rattle.acceptance.specs.Sources as sources;
ghost use Rattle.scopes.specs.Intervals.{interval_in};
ghost use Rattle.scopes.specs.Scopes.{declared_in, kept_intervals, scope_in};
ghost use Rattle.affine_checks.specs.Demands.{meets as meets_demand};
ghost use Rattle.affine_checks.specs.Shown.{intervals_at};

use crate::affine::is_data;
use crate::demand::Demand;
use crate::narrow::narrow;
use crate::parts::{meets, parts_meet, sides_meet};
use c_tree::{Expr, Rel, Stmt};
use scopes::{Interval, Scope};

fn item_meets(demand: Demand, sc: &Scope<'_, '_>, s: &Stmt) -> bool
    ensures { result ≡ spec.item_parts_hold (meets_demand demand (scope_in sc.now) (intervals_at sc.now)) (scope_in sc.now) (stmt s.now) }
{
    match s {
        Stmt::For { lo, hi, .. } => meets(demand, sc, lo) && meets(demand, sc, hi),
        Stmt::If { tests, .. } => sides_meet(demand, sc, tests),
        Stmt::Assign { target, value, .. } => {
            parts_meet(demand, sc, target) && parts_meet(demand, sc, value)
        }
        Stmt::Table { .. } => true,
        Stmt::Begin => true,
        Stmt::Check { .. } => true,
        Stmt::Verdict => true,
    }
}

fn assigns_data(sc: &Scope<'_, '_>, s: &Stmt) -> bool
    ensures { result ≡ sources.assigns_data (scope_in sc.now) (stmt s.now) }
{
    match s {
        Stmt::Assign { value, .. } => is_data(sc, value),
        _ => true,
    }
}

/// S9: whether an affine part of the item isn't affine, or the value of an assignment has a signed
/// name outside casts and subscripts.
pub fn is_not_affine(sc: &Scope<'_, '_>, s: &Stmt) -> bool
    ensures { result ≡ not (spec.item_parts_hold (affine.is_affine (scope_in sc.now)) (scope_in sc.now) (stmt s.now)
        && sources.assigns_data (scope_in sc.now) (stmt s.now)) }
{
    !(item_meets(Demand::Affine, sc, s) && assigns_data(sc, s))
}

/// S10: whether in an affine part of the item some constant or coefficient is beyond 2^20 in size.
pub fn is_too_large(sc: &Scope<'_, '_>, s: &Stmt) -> bool
    ensures { result ≡ not (spec.item_parts_hold (affine.has_small_terms (scope_in sc.now)) (scope_in sc.now) (stmt s.now)) }
{
    !item_meets(Demand::Small, sc, s)
}

/// S11: whether in an affine part of the item some interval isn't within -2^62 to 2^62, by the
/// intervals that are kept at the loops.
pub fn is_too_wide(sc: &Scope<'_, '_>, s: &Stmt) -> bool
    ensures { result ≡ not (spec.item_parts_hold (affine.holds_throughout
        (affine.is_narrow (kept_intervals (intervals_of (declared_in sc.now.declared.now)) sc.now.around.now))) (scope_in sc.now) (stmt s.now)) }
{
    !item_meets(Demand::Narrow, sc, s)
}

fn from_bounds(lo: Interval, rel: Rel, hi: Interval) -> Interval
    ensures { interval_in result ≡ spec.loop_interval (interval_in lo) rel (interval_in hi) }
{
    match rel {
        Rel::Lt => if hi.greatest <= lo.least {
            Interval {
                least: lo.least,
                greatest: lo.least,
            }
        } else {
            Interval {
                least: lo.least,
                greatest: hi.greatest - 1,
            }
        },
        _ => if hi.greatest < lo.least {
            Interval {
                least: lo.least,
                greatest: lo.least,
            }
        } else {
            Interval {
                least: lo.least,
                greatest: hi.greatest,
            }
        },
    }
}

/// The interval of a loop's variable, by the intervals that are kept at the loops around it, where
/// those of its bounds are within -2^62 to 2^62 throughout.
pub fn interval_of_loop(sc: &Scope<'_, '_>, lo: &Expr, rel: Rel, hi: &Expr) -> Interval
    ensures { let rs = kept_intervals (intervals_of (declared_in sc.now.declared.now)) sc.now.around.now in
        affine.holds_throughout (affine.is_narrow rs) (expr lo.now) ≡ true → affine.holds_throughout (affine.is_narrow rs) (expr hi.now) ≡ true
        → interval_in result ≡ spec.loop_interval (affine.interval rs (expr lo.now)) rel (affine.interval rs (expr hi.now)) }
{
    match narrow(sc, lo) {
        Some(i) => match narrow(sc, hi) {
            Some(j) => from_bounds(i, rel, j),
            None => i,
        },
        None => Interval {
            least: 0,
            greatest: 0,
        },
    }
}
