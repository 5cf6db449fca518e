//! Laws of accepted sources: they have all that the laws of runs, of instrumented texts, of counting passes and of tables ask.
#![tactic(auto)]

ghost use Rattle.std.specs.Prelude.{◌≡◌, true, false, List, ℤ};
ghost use Rattle.acceptance.specs.Sources.{IsAcceptedSource, all_are_regular};
ghost use Rattle.acceptance.specs.WorkedSources.{gather, mix};
ghost use Rattle.c_tree.specs.Inputs.{AreInRange, Fit, PlainInputs};
ghost use Rattle.guard_laws.specs.Forms.{HasForms};
ghost use Rattle.guard_laws.specs.Guards.{Guards, GuardsInDetail};
ghost use Rattle.guard_laws.specs.IndexArrays.{is_index_array};
ghost use Rattle.instrumentation.specs.Guarded.{guarded};
ghost use Rattle.instrumentation_laws.specs.RegularUnits.{number_for};
ghost use Rattle.instrumentation_laws.specs.Setting.{inspected_in};
ghost use Rattle.source_laws.specs.Exact.{IsExactFor};
ghost use Rattle.source_laws.specs.Laws.{AcceptedAreExact, AcceptedAreGuarded, AcceptedAreRunnable, AcceptedAreSources, AcceptedArePrinted, AcceptedFollow, AcceptedHaveForms, AcceptedHaveTrees, AcceptedRunAlike, AcceptedStoreNothing, IsRegularSource};
ghost use Rattle.source_laws.specs.Worked.{two_indices};

/// Where the parameters lie in their ranges no signed value of an accepted source wraps, index cells or not: its extents and bounds, the sides of its tests, its subscripts and the signed operands of its casts are what they are as whole numbers, at all values that the loops around them have.
pub fn accepted_sources_are_exact()
    ensures { AcceptedAreExact }
{}

/// For inputs that fit an accepted source has what the laws of runs and of instrumented units ask, index arrays and inspected arrays included; so its run, where it stays within its arrays, is that of its instances.
pub fn accepted_sources_follow()
    ensures forms { AcceptedHaveForms }
    ensures source { AcceptedAreSources }
    ensures follow { AcceptedFollow }
{
    instrumentation_laws::exact_sources_follow();
    pass_laws::passes_count();
    inspection_laws::units_count();
}

/// The instrumented unit of every accepted source is accepted as a printed unit, and is one that the interpreter runs. It is a tree of the grammar of printed texts, and stores into no array before the source's statements begin.
pub fn accepted_sources_are_printed()
    ensures printed { AcceptedArePrinted }
    ensures runs { AcceptedAreRunnable }
    ensures tree { AcceptedHaveTrees }
    ensures stores { AcceptedStoreNothing }
{
    accepted_laws::accepted_source_is_suited();
    accepted_laws::suited_is_accepted();
}

/// It guards the source: without a fault it ends balanced with the source's output, and it reports a fault exactly where the cell's next access is a read.
pub fn accepted_sources_are_guarded()
    ensures { AcceptedAreGuarded }
{
    guard_laws::ready_sources_are_guarded();
    accepted_sources_follow();
}

/// Where no array is inspected the unit makes, for all inputs that fit and under every fault, the source's accesses, with the same values, and ends as the source does, within its arrays or not.
pub fn accepted_sources_run_alike()
    ensures { AcceptedRunAlike }
{
    accepted_sources_are_guarded();
}

/// A nest of two loops over three arrays is such a source, and is guarded.
pub fn a_nest_is_guarded()
    ensures accepted { IsRegularSource mix }
    ensures guarded { Guards mix (guarded mix) }
{
    accepted_sources_are_guarded();
}

/// A source that reads through an index array is accepted, no signed value of it wraps, and it is guarded.
pub fn a_gather_is_guarded()
    ensures accepted { IsAcceptedSource gather }
    ensures irregular { all_are_regular gather.body ≡ false }
    ensures exact { (ns : List ℤ) → AreInRange gather.ranges gather.params ns → IsExactFor gather ns }
    ensures guarded { Guards gather (guarded gather) }
{
    accepted_sources_are_exact();
    accepted_sources_are_guarded();
}

/// A source that reads an array through two index arrays in one cell and writes it, with constants as an extent and as a coordinate, is accepted, no signed value of it wraps, and it is guarded.
pub fn two_index_arrays_are_guarded()
    ensures accepted { IsAcceptedSource two_indices }
    ensures inspected { inspected_in (number_for two_indices) two_indices.body 2 ≡ true }
    ensures first { is_index_array two_indices 0 ≡ true }
    ensures second { is_index_array two_indices 1 ≡ true }
    ensures exact { (ns : List ℤ) → AreInRange two_indices.ranges two_indices.params ns → IsExactFor two_indices ns }
    ensures forms { (i : PlainInputs) → Fit two_indices i → HasForms two_indices i }
    ensures guarded { GuardsInDetail two_indices (guarded two_indices) }
{
    accepted_sources_are_exact();
    accepted_sources_follow();
    accepted_sources_are_guarded();
}
