//! Laws of instrumented texts: what they do for every source, whatever their pieces are, as long as these count.
#![tactic(auto)]

ghost use Rattle.instrumentation_laws.specs.ExactSources.{ExactListsAreOne, ExactSourcesFollow};
ghost use Rattle.instrumentation_laws.specs.KeptPrologues.{KeptProloguesFill};
ghost use Rattle.instrumentation_laws.specs.KeptTexts.{EveryFaultIsTold, EveryKeptTextBalances, EveryQuietTextEnds, HiddenOrPlain};
ghost use Rattle.instrumentation_laws.specs.KeptUnits.{CountedUnitsGoOn, EveryKeptRunBalances, EveryKeptRunFollows, EveryKeptRunHasTotals, EveryKeptRunStaysOnCourse, EveryKeptRunTells, EveryKeptUnitLeaves, KeptUnitsAreCounted, KeptUnitsGoOn};
ghost use Rattle.instrumentation_laws.specs.RegularUnits.{GuardedIsInstrumented};
ghost use Rattle.instrumentation_laws.specs.TextLaws.{EveryTextFollows};
ghost use Rattle.instrumentation_laws.specs.UnitLaws.{EveryRegularUnitFollows, EveryUnitFollows};

/// Under every fault a text makes its source's accesses with the same values and leaves the same memory and scalars, and both go on or end outside the same array.
pub fn every_text_follows()
    ensures { EveryTextFollows }
{}

/// Under every fault a whole instrumented unit whose tables can be built makes its source's accesses with the same values, leaves the same arrays and ends as its source does or at a check, whatever its pieces count;
/// without an inspected array it ends as its source does.
pub fn every_unit_follows()
    ensures follows { EveryUnitFollows }
    ensures alike { EveryRegularUnitFollows }
{}

/// The whole unit, with tables and passes, is an instrumented unit of its source.
pub fn regular_units_are_counted()
    ensures guarded { GuardedIsInstrumented }
{}

/// Without a fault, and under one that isn't exposed or is in no index array, a text with irregular reads goes on to its end, with the accesses and totals of its source.
pub fn every_quiet_text_ends()
    ensures { EveryQuietTextEnds }
{}

/// Under a fault in any array, an index array too, a text that goes on to its end tells of it exactly where it is exposed; pieces may rely on tables and on words that count.
pub fn every_fault_is_told()
    ensures { EveryFaultIsTold }
{
    balance_laws::law_of_flips();
}

/// A fault that isn't exposed, or is in no index array, keeps a text from no access of its source, and the totals of no other array from agreeing.
pub fn hidden_faults_change_no_course()
    ensures { HiddenOrPlain }
{
    balance_laws::law_of_flips();
}

/// Without a fault a text with irregular reads goes on to its end, with its source's accesses, and all totals agree.
pub fn every_kept_text_balances()
    ensures { EveryKeptTextBalances }
{
    balance_laws::law_of_totals();
    balance_laws::law_of_flips();
}

/// Under every fault a unit with tables takes its source's steps, on sound inputs: the same accesses with the same values, and the same arrays. Where the source ends plain, the totals decide the verdict; where a fault leads it out of an array, the unit ends at a check of an index of it.
/// Where it doesn't end at a check, its totals are those of the source's list and of the values of this run. Under a fault that isn't exposed or is in no index array it makes the source's list.
/// Where inputs lead the source out of its arrays and the tables can be built, the source ends outside an array under every fault, and the unit there or at a check of an index of it.
pub fn every_kept_unit_follows()
    ensures steps { EveryKeptRunFollows }
    ensures totals { EveryKeptRunHasTotals }
    ensures on_course { EveryKeptRunStaysOnCourse }
    ensures leaves { EveryKeptUnitLeaves }
    ensures go_on { CountedUnitsGoOn }
{}

/// Without a fault it ends balanced, with its source's output and accesses.
pub fn every_kept_unit_balances()
    ensures { EveryKeptRunBalances }
{
    balance_laws::law_of_totals();
    balance_laws::law_of_flips();
}

/// With a fault in any array it reports exactly where the fault is exposed: by its array alone where this is no index array, else by a check or a list of arrays that has it.
pub fn every_kept_unit_tells()
    ensures { EveryKeptRunTells }
{
    balance_laws::law_of_flips();
}

/// The instrumented unit of a source has right names and numbers by itself: it counts where its pieces do from what its tables keep, and goes on where they go on.
pub fn kept_units_are_counted()
    ensures counted { KeptUnitsAreCounted }
    ensures go_on { KeptUnitsGoOn }
{}

/// Tables and prologue of an instrumented unit go on under every fault, and leave in each definition total the sum over the cells of value times uses.
pub fn kept_prologues_fill()
    ensures { KeptProloguesFill }
{}

/// A source with index cells of which no signed value wraps, and which writes no index array: its accesses by signed values are those of its instances, and so is its run without a fault, where it stays within its arrays.
pub fn exact_sources_follow()
    ensures lists { ExactListsAreOne }
    ensures runs { ExactSourcesFollow }
{}
