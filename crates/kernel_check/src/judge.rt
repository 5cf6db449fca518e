//! Whole units: the lowest refusal that holds anywhere.

ghost use Rattle.std.specs.Prelude.{◌≡◌, ◌∷◌, [], false};
ghost use Rattle.c_tree.specs.Trees.{unit as tree};
ghost use Rattle.acceptance.specs.Head.{extent_too_wide};
ghost use Rattle.acceptance.specs.Sources.{judged};
ghost use Rattle.acceptance.specs.Trees.{IsSourceTree, IsPrintedTree};
ghost use Rattle.kernel_check.specs.Conditions.{IsNumbered};
ghost use Rattle.kernel_check.specs.Judging.{IsJudged, printed_judged, twelfth};
ghost use Rattle.scopes.specs.Scopes.{declared_in};

use crate::conditions::Check;
use crate::count::has_few_items;
use crate::counts::refuse_counts;
use crate::refusing::refuse_all;
use affine_checks::extents_not_positive;
use c_tree::{Refusal, Unit};
use scopes::Declared;
use std::alloc::Global;

fn refuse_extents<'n>(alloc: Global, declared: &Declared<'n>) -> Result<(), Refusal>
    requires { extent_too_wide (declared_in declared.now) ≡ false }
    ensures { IsJudged (declared_in declared.now) (twelfth (declared_in declared.now) ∷ []) result }
{
    if extents_not_positive(alloc, declared) {
        Err(Refusal::ExtentNotPositive { item: 0 })
    } else {
        Ok(())
    }
}

fn refuse_source<'n>(alloc: Global, declared: &Declared<'n>) -> Result<(), Refusal>
    requires { IsNumbered (declared_in declared.now) }
    ensures { IsJudged (declared_in declared.now) (judged (declared_in declared.now)) result }
{
    let names = [
        Check::NameTwice,
        Check::NameUnknown,
        Check::ReservedName,
        Check::BadRange,
    ];
    let sums = [
        Check::NotAffine,
        Check::CoefficientTooLarge,
        Check::IntervalTooWide,
    ];
    let cells = [
        Check::WrongDimensions,
        Check::WriteToConst,
        Check::BadIndexArray,
        Check::BadLiteral,
        Check::IrregularWrite,
    ];
    refuse_all(alloc, &names, declared)?;
    refuse_counts(alloc, declared)?;
    refuse_all(alloc, &sums, declared)?;
    refuse_extents(alloc, declared)?;
    refuse_all(alloc, &cells, declared)
}

fn refuse_printed<'n>(alloc: Global, declared: &Declared<'n>) -> Result<(), Refusal>
    requires { IsNumbered (declared_in declared.now) }
    ensures { IsJudged (declared_in declared.now) (printed_judged (declared_in declared.now)) result }
{
    let names = [
        Check::NameTwice,
        Check::NameUnknown,
        Check::BadRange,
        Check::ExtentNotAffine,
        Check::ExtentTermsTooLarge,
        Check::ExtentTooWide,
    ];
    let kinds = [Check::WrongDimensions, Check::BadLiteral, Check::WrongKind];
    refuse_all(alloc, &names, declared)?;
    refuse_extents(alloc, declared)?;
    refuse_all(alloc, &kinds, declared)
}

/// The lowest refusal of a source that holds anywhere, with its least item.
pub fn judge_source(alloc: Global, unit: &Unit) -> Result<(), Refusal>
    requires { IsSourceTree (tree unit.now) }
    ensures { IsJudged (tree unit.now) (judged (tree unit.now)) result }
{
    if !has_few_items(&unit.body) {
        return Err(Refusal::OutOfMemory);
    }
    let declared = Declared::new(alloc, unit)?;
    refuse_source(alloc, &declared)
}

/// The lowest refusal of a printed unit that holds anywhere, with its least item.
pub fn judge_printed(alloc: Global, unit: &Unit) -> Result<(), Refusal>
    requires { IsPrintedTree (tree unit.now) }
    ensures { IsJudged (tree unit.now) (printed_judged (tree unit.now)) result }
{
    if !has_few_items(&unit.body) {
        return Err(Refusal::OutOfMemory);
    }
    let declared = Declared::new(alloc, unit)?;
    refuse_printed(alloc, &declared)
}
