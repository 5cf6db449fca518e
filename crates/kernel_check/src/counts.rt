//! The counts of a source that have a limit.

ghost use Rattle.std.specs.Prelude.{◌≡◌, ◌∷◌, [], ℕ, IfOk, option_map, true};
ghost use Rattle.c_tree.specs.Instances.{sites_all};
ghost use Rattle.acceptance.specs.Limits as limits;
ghost use Rattle.kernel_check.specs.Conditions.{carries_count, IsNumbered};
ghost use Rattle.kernel_check.specs.Excesses.{excess_in, first_over, in_head_of, eighth};
ghost use Rattle.kernel_check.specs.Judging.{IsJudged};
ghost use Rattle.scopes.specs.Scopes.{declared_in};

use crate::conditions::Check;
use crate::top::first_of;
use c_tree::{Counted, OutOfMemory, Refusal};
use scopes::Declared;
use std::alloc::Global;
use unit_checks::{array_count, assignments_in, int_count};

/// A count over its limit, at an item.
#[derive(Clone, Copy)]
pub struct Excess {
    pub counted: Counted,
    pub count: u64,
    pub item: u32,
}

fn overall(counted: Counted, most: u64, count: u64) -> Option<Excess>
    ensures { option_map excess_in result ≡ limits.overall counted most count }
{
    if most < count {
        Some(Excess {
            counted,
            count,
            item: 0,
        })
    } else {
        None
    }
}

fn in_items<'n>(
    alloc: Global,
    check: Check,
    counted: Counted,
    declared: &Declared<'n>,
) -> Result<Option<Excess>, OutOfMemory>
    requires numbered { IsNumbered (declared_in declared.now) }
    requires count { carries_count check ≡ true }
    ensures { IfOk result (λ found. option_map excess_in found ≡ first_over check counted (declared_in declared.now)) }
{
    match first_of(alloc, check, declared, &declared.unit.body)? {
        Some((item, count)) => Ok(Some(Excess {
            counted,
            count,
            item,
        })),
        None => Ok(None),
    }
}

// The first of two.
fn either(first: Option<Excess>, other: Option<Excess>) -> Option<Excess>
    ensures { option_map excess_in result ≡ limits.first_excess (option_map excess_in first ∷ option_map excess_in other ∷ []) }
{
    match first {
        Some(excess) => Some(excess),
        None => other,
    }
}

// A count that is too large for a word isn't told apart from want of memory.
fn statements<'n>(declared: &Declared<'n>) -> Result<Option<Excess>, OutOfMemory>
    ensures { IfOk result (λ found. option_map excess_in found ≡ limits.overall Counted.Statements 256 (sites_all (declared_in declared.now).body)) }
{
    let count = assignments_in(&declared.unit.body);
    if count == u64::MAX {
        return Err(OutOfMemory);
    }
    Ok(overall(Counted::Statements, 256, count))
}

fn in_head<'n>(declared: &Declared<'n>) -> Option<Excess>
    ensures { option_map excess_in result ≡ limits.first_excess (in_head_of (declared_in declared.now)) }
{
    let scalars = declared.unit.words.as_slice().len() as u64;
    either(
        overall(Counted::Parameters, 8, int_count(declared)),
        either(
            overall(Counted::Arrays, 16, array_count(declared)),
            overall(Counted::Scalars, 16, scalars),
        ),
    )
}

fn first_excess<'n>(alloc: Global, declared: &Declared<'n>) -> Result<Option<Excess>, OutOfMemory>
    requires { IsNumbered (declared_in declared.now) }
    ensures { IfOk result (λ found. option_map excess_in found ≡ limits.too_many (declared_in declared.now)) }
{
    if let Some(excess) = in_head(declared) {
        return Ok(Some(excess));
    }
    if let Some(excess) = in_items(alloc, Check::TooDeep, Counted::Depth, declared)? {
        return Ok(Some(excess));
    }
    if let Some(excess) = statements(declared)? {
        return Ok(Some(excess));
    }
    in_items(alloc, Check::TooManyReads, Counted::Reads, declared)
}

/// The refusal for the first count that is over its limit.
pub fn refuse_counts<'n>(alloc: Global, declared: &Declared<'n>) -> Result<(), Refusal>
    requires { IsNumbered (declared_in declared.now) }
    ensures { IsJudged (declared_in declared.now) (eighth (declared_in declared.now) ∷ []) result }
{
    match first_excess(alloc, declared)? {
        Some(excess) => Err(Refusal::TooMany {
            counted: excess.counted,
            count: excess.count,
            item: excess.item,
        }),
        None => Ok(()),
    }
}
