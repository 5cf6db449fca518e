//! The refusals at the head.

ghost use Rattle.std.specs.Prelude.{◌≡◌, false, map};
ghost use Rattle.std.specs.List.{list_all, list_any};
ghost use Rattle.c_tree.specs.Trees.{exprs, param};
ghost use Rattle.acceptance.specs.Head as spec;
ghost use Rattle.scopes.specs.Scopes.{declared_in, scope_in};
ghost use Rattle.affine_checks.specs.Demands.{meets as meets_demand};
ghost use Rattle.affine_checks.specs.Linear as linear;
ghost use Rattle.affine_checks.specs.Shown.{intervals_at};

use crate::demand::Demand;
use crate::narrow::is_low;
use crate::parts::all_meet;
use c_tree::{Exprs, Param};
use scopes::{Around, Declared, NameSet, Scope};
use std::alloc::Global;

#[tactic(auto, using(crate::proofs::Rows::appended))]
fn params_meet(demand: Demand, sc: &Scope<'_, '_>, params: &[Param]) -> bool
    ensures { result ≡ list_all (meets_demand demand (scope_in sc.now) (intervals_at sc.now)) (spec.extents_in (map param params.now)) }
{
    for p in params {
        if let Param::Array { extents, .. } = p {
            if !all_meet(demand, sc, extents) {
                return false;
            }
        }
    }
    true
}

fn extents_meet(alloc: Global, demand: Demand, declared: &Declared<'_>) -> bool
    ensures { let u = declared_in declared.now in
        result ≡ list_all (meets_demand demand (spec.head_scope u) (spec.intervals_of u)) (spec.extents_in u.params) }
{
    let tables: NameSet<'static> = NameSet::new(alloc);
    let around = Around::Nothing;
    let sc = Scope {
        declared,
        tables: &tables,
        around: &around,
    };
    params_meet(demand, &sc, declared.unit.params.as_slice())
}

/// S9: whether an extent isn't affine.
pub fn extents_not_affine(alloc: Global, declared: &Declared<'_>) -> bool
    ensures { result ≡ spec.extent_not_affine (declared_in declared.now) }
{
    !extents_meet(alloc, Demand::Affine, declared)
}

/// S10: whether in an extent some constant or coefficient is beyond 2^20 in size.
pub fn extents_too_large(alloc: Global, declared: &Declared<'_>) -> bool
    ensures { result ≡ spec.extent_terms_too_large (declared_in declared.now) }
{
    !extents_meet(alloc, Demand::Small, declared)
}

/// S11: whether in an extent some interval isn't within -2^62 to 2^62.
pub fn extents_too_wide(alloc: Global, declared: &Declared<'_>) -> bool
    ensures { result ≡ spec.extent_too_wide (declared_in declared.now) }
{
    !extents_meet(alloc, Demand::Narrow, declared)
}

fn some_is_low(sc: &Scope<'_, '_>, es: &Exprs) -> bool
    ensures { result ≡ list_any (linear.is_low (intervals_at sc.now)) (spec.list_of (exprs es.now)) }
{
    for e in es.as_slice() {
        if is_low(sc, e) {
            return true;
        }
    }
    false
}

#[tactic(auto, using(crate::proofs::Rows::appended))]
fn some_extent_is_low(sc: &Scope<'_, '_>, params: &[Param]) -> bool
    ensures { result ≡ list_any (linear.is_low (intervals_at sc.now)) (spec.extents_in (map param params.now)) }
{
    for p in params {
        if let Param::Array { extents, .. } = p {
            if some_is_low(sc, extents) {
                return true;
            }
        }
    }
    false
}

/// S12: whether the interval of an extent begins below 1, where none is too wide.
pub fn extents_not_positive(alloc: Global, declared: &Declared<'_>) -> bool
    ensures { spec.extent_too_wide (declared_in declared.now) ≡ false → result ≡ spec.extent_not_positive (declared_in declared.now) }
{
    let tables: NameSet<'static> = NameSet::new(alloc);
    let around = Around::Nothing;
    let sc = Scope {
        declared,
        tables: &tables,
        around: &around,
    };
    some_extent_is_low(&sc, declared.unit.params.as_slice())
}
