//! The refusals that hold at the head.

ghost use Rattle.std.specs.Prelude.{◌≡◌, map, false};
ghost use Rattle.std.specs.List.{list_any};
ghost use Rattle.c_tree.specs.Trees.{unit as tree};
ghost use Rattle.kernel_check.specs.Conditions.{carries_count, judgement_at_head};
ghost use Rattle.kernel_check.specs.Judging.{IsJudged, head_judged};
ghost use Rattle.scopes.specs.Scopes.{declared_in};

use crate::conditions::{Check, holds_at_head};
use crate::refusing::refusal_at;
use affine_checks::extents_not_positive;
use c_tree::{Refusal, Unit};
use scopes::Declared;
use std::alloc::Global;

fn refuse_checks<'n>(
    alloc: Global,
    checks: &[Check],
    declared: &Declared<'n>,
) -> Result<(), Refusal>
    requires { list_any carries_count checks.now ≡ false }
    ensures { IsJudged (declared_in declared.now) (map (judgement_at_head (declared_in declared.now)) checks.now) result }
{
    for check in checks {
        if holds_at_head(alloc, *check, declared)? {
            return Err(refusal_at(*check, 0));
        }
    }
    Ok(())
}

fn refuse_head<'n>(alloc: Global, declared: &Declared<'n>) -> Result<(), Refusal>
    ensures { IsJudged (declared_in declared.now) (head_judged (declared_in declared.now)) result }
{
    let checks = [
        Check::NameTwice,
        Check::NameUnknown,
        Check::BadRange,
        Check::ExtentNotAffine,
        Check::ExtentTermsTooLarge,
        Check::ExtentTooWide,
    ];
    refuse_checks(alloc, &checks, declared)?;
    if extents_not_positive(alloc, declared) {
        Err(Refusal::ExtentNotPositive { item: 0 })
    } else {
        Ok(())
    }
}

/// The lowest refusal that holds at the head of a unit.
pub fn judge_head(alloc: Global, unit: &Unit) -> Result<(), Refusal>
    ensures { IsJudged (tree unit.now) (head_judged (tree unit.now)) result }
{
    let declared = Declared::new(alloc, unit)?;
    refuse_head(alloc, &declared)
}
