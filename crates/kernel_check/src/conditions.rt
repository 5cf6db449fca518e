//! The conditions of a unit, at its head and at an item.

ghost use Rattle.std.specs.Prelude.{◌≡◌, IfOk, ℕ};
ghost use Rattle.c_tree.specs.Trees.{stmt};
ghost use Rattle.kernel_check.specs.Conditions.{condition, excess, holds, over as over_limit, IsRanged};
ghost use Rattle.kernel_check.specs.Items.{item_in};
ghost use Rattle.scopes.specs.Scopes.{declared_in};
ghost use Rattle.unit_checks.specs.Counts.{saturated};

use affine_checks::{
    extents_not_affine, extents_too_large, extents_too_wide, is_not_affine, is_too_large,
    is_too_wide,
};
use c_tree::{OutOfMemory, Stmt};
use scopes::{Declared, Scope};
use std::alloc::Global;
use unit_checks::{
    has_bad_index_array, has_bad_literal, has_irregular_write, has_name_twice, has_reserved_name,
    has_unknown_name, has_wrong_dimensions, has_wrong_kind, head_has_bad_range,
    head_has_name_twice, head_has_reserved_name, head_has_unknown_name, head_has_wrong_kind,
    loop_depth, reads_in, writes_to_const,
};

/// A condition that may hold at the head or at an item.
#[derive(Clone, Copy, PartialEq, Eq)]
pub enum Check {
    NameTwice,
    NameUnknown,
    ReservedName,
    BadRange,
    TooDeep,
    TooManyReads,
    NotAffine,
    CoefficientTooLarge,
    IntervalTooWide,
    ExtentNotAffine,
    ExtentTermsTooLarge,
    ExtentTooWide,
    WrongDimensions,
    WriteToConst,
    BadIndexArray,
    BadLiteral,
    IrregularWrite,
    WrongKind,
}

/// Whether the condition holds at the head.
pub fn holds_at_head(
    alloc: Global,
    check: Check,
    declared: &Declared<'_>,
) -> Result<bool, OutOfMemory>
    ensures { IfOk result (λ found. found ≡ (condition check (declared_in declared.now)).head) }
{
    match check {
        Check::NameTwice => head_has_name_twice(alloc, declared),
        Check::NameUnknown => head_has_unknown_name(alloc, declared),
        Check::ReservedName => Ok(head_has_reserved_name(declared)),
        Check::BadRange => head_has_bad_range(alloc, declared),
        Check::NotAffine | Check::ExtentNotAffine => Ok(extents_not_affine(alloc, declared)),
        Check::CoefficientTooLarge | Check::ExtentTermsTooLarge => {
            Ok(extents_too_large(alloc, declared))
        }
        Check::IntervalTooWide | Check::ExtentTooWide => Ok(extents_too_wide(alloc, declared)),
        Check::WrongKind => Ok(head_has_wrong_kind(declared)),
        _ => Ok(false),
    }
}

fn found(holding: bool) -> Option<u64>
    ensures { result ≡ holds holding }
{
    if holding { Some(0) } else { None }
}

fn over(most: u64, count: u64) -> Option<u64>
    ensures { result ≡ over_limit most count }
{
    if most < count { Some(count) } else { None }
}

// A count that is too large for a word isn't told apart from want of memory.
fn exact(most: u64, count: u64) -> Result<Option<u64>, OutOfMemory>
    ensures { (n : ℕ) → count ≡ saturated n → IfOk result (λ found. found ≡ over_limit most n) }
{
    if count == u64::MAX {
        return Err(OutOfMemory);
    }
    Ok(over(most, count))
}

/// What there is too much of at an item, or 0, where the condition holds there.
pub fn excess_of(
    alloc: Global,
    check: Check,
    sc: &Scope<'_, '_>,
    s: &Stmt,
) -> Result<Option<u64>, OutOfMemory>
    requires { IsRanged check sc.now }
    ensures { IfOk result (λ found. found ≡ excess check (declared_in sc.now.declared.now) (item_in sc.now (stmt s.now))) }
{
    match check {
        Check::NameTwice => Ok(found(has_name_twice(sc, s))),
        Check::NameUnknown => Ok(found(has_unknown_name(alloc, sc, s)?)),
        Check::ReservedName => Ok(found(has_reserved_name(s))),
        Check::TooDeep => exact(6, loop_depth(sc, s)),
        Check::TooManyReads => exact(16, reads_in(s)),
        Check::NotAffine => Ok(found(is_not_affine(sc, s))),
        Check::CoefficientTooLarge => Ok(found(is_too_large(sc, s))),
        Check::IntervalTooWide => Ok(found(is_too_wide(sc, s))),
        Check::WrongDimensions => Ok(found(has_wrong_dimensions(alloc, sc, s)?)),
        Check::WriteToConst => Ok(found(writes_to_const(sc, s))),
        Check::BadIndexArray => Ok(found(has_bad_index_array(sc, s))),
        Check::BadLiteral => Ok(found(has_bad_literal(s))),
        Check::IrregularWrite => Ok(found(has_irregular_write(s))),
        Check::WrongKind => Ok(found(has_wrong_kind(alloc, sc, s)?)),
        _ => Ok(None),
    }
}
