//! One refusal at a time.

ghost use Rattle.std.specs.Prelude.{◌≡◌, IfOk, Some, map, false, [], ◌∷◌};
ghost use Rattle.std.specs.List.{list_any};
ghost use Rattle.c_tree.specs.Plain.{PlainUnit};
ghost use Rattle.acceptance.specs.Items.{least_item};
ghost use Rattle.kernel_check.specs.Conditions.{carries_count, condition, judgement, number, IsNumbered};
ghost use Rattle.kernel_check.specs.Judging.{number_of, item_of, CarriesCount, IsJudged};
ghost use Rattle.scopes.specs.Scopes.{declared_in};

use crate::conditions::{Check, holds_at_head};
use crate::top::first_of;
use c_tree::{Counted, OutOfMemory, Refusal};
use scopes::Declared;
use std::alloc::Global;

pub fn refusal_at(check: Check, item: u32) -> Refusal
    ensures number { number_of result ≡ number check }
    ensures item { item_of result ≡ Some item }
    ensures count { (u : PlainUnit) → carries_count check ≡ false → CarriesCount u result }
{
    match check {
        Check::NameTwice => Refusal::NameTwice { item },
        Check::NameUnknown => Refusal::NameUnknown { item },
        Check::ReservedName => Refusal::ReservedName { item },
        Check::BadRange => Refusal::BadRange { item },
        Check::TooDeep | Check::TooManyReads => Refusal::TooMany {
            counted: Counted::Depth,
            count: 0,
            item,
        },
        Check::NotAffine | Check::ExtentNotAffine => Refusal::NotAffine { item },
        Check::CoefficientTooLarge | Check::ExtentTermsTooLarge => {
            Refusal::CoefficientTooLarge { item }
        }
        Check::IntervalTooWide | Check::ExtentTooWide => Refusal::IntervalTooWide { item },
        Check::WrongDimensions => Refusal::WrongDimensions { item },
        Check::WriteToConst => Refusal::WriteToConst { item },
        Check::BadIndexArray => Refusal::BadIndexArray { item },
        Check::BadLiteral => Refusal::BadLiteral { item },
        Check::IrregularWrite => Refusal::IrregularWrite { item },
        Check::WrongKind => Refusal::WrongKind { item },
    }
}

fn least<'n>(
    alloc: Global,
    check: Check,
    declared: &Declared<'n>,
) -> Result<Option<u32>, OutOfMemory>
    requires { IsNumbered (declared_in declared.now) }
    ensures { IfOk result (λ found. found ≡ least_item (declared_in declared.now) (condition check (declared_in declared.now))) }
{
    if holds_at_head(alloc, check, declared)? {
        return Ok(Some(0));
    }
    match first_of(alloc, check, declared, &declared.unit.body)? {
        Some((item, _)) => Ok(Some(item)),
        None => Ok(None),
    }
}

// The refusal of this condition, where it holds anywhere.
fn refuse<'n>(alloc: Global, check: Check, declared: &Declared<'n>) -> Result<(), Refusal>
    requires numbered { IsNumbered (declared_in declared.now) }
    requires no_count { carries_count check ≡ false }
    ensures { IsJudged (declared_in declared.now) (judgement (declared_in declared.now) check ∷ []) result }
{
    match least(alloc, check, declared)? {
        Some(item) => Err(refusal_at(check, item)),
        None => Ok(()),
    }
}

/// The lowest refusal of these conditions, which are in the order of their numbers.
pub fn refuse_all<'n>(
    alloc: Global,
    checks: &[Check],
    declared: &Declared<'n>,
) -> Result<(), Refusal>
    requires numbered { IsNumbered (declared_in declared.now) }
    requires no_count { list_any carries_count checks.now ≡ false }
    ensures { IsJudged (declared_in declared.now) (map (judgement (declared_in declared.now)) checks.now) result }
{
    for check in checks {
        refuse(alloc, *check, declared)?;
    }
    Ok(())
}
