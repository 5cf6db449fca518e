//! Laws of faults: what the run of an instrumented unit is under each fault, exposed or not.
#![tactic(auto)]

ghost use Rattle.std.specs.Prelude.{◌≡◌, codes, List, ℕ};
ghost use Rattle.acceptance.specs.WorkedSources.{gather, mix};
ghost use Rattle.instrumentation.specs.Guarded.{guarded};
ghost use Rattle.flip_laws.specs.FaultyRuns.{AcceptedTellOfFaults, ReadyTellOfFaults, TellsOfFaults, UninspectedTakeSteps};
ghost use Rattle.balance_laws.specs.Independence.{AreApart, IsIndexArray};
ghost use Rattle.flip_laws.specs.Apart.{AcceptedAreApart, own_index};

/// Under every fault the instrumented unit of a source that has the forms that are asked for takes its source's steps, or ends at a check where the source leaves an array, and where it doesn't end so it has the totals of what this run read and wrote. A fault that isn't exposed shows in nothing but the one bit, where that stays.
pub fn ready_sources_tell_of_faults()
    ensures { ReadyTellOfFaults }
{
    balance_laws::law_of_flips();
    instrumentation_laws::every_text_follows();
    instrumentation_laws::every_quiet_text_ends();
    instrumentation_laws::every_kept_unit_follows();
    pass_laws::passes_go_on();
    guard_laws::ready_sources_are_guarded();
}

/// So does that of every accepted source.
pub fn accepted_sources_tell_of_faults()
    ensures { AcceptedTellOfFaults }
{
    ready_sources_tell_of_faults();
    source_laws::accepted_sources_follow();
}

/// Where no array of it is inspected, the unit takes its source's steps under every fault.
pub fn uninspected_sources_take_steps()
    ensures { UninspectedTakeSteps }
{
    accepted_sources_tell_of_faults();
    guard_laws::uninspected_sources_have_no_indices();
}

/// No cell of an accepted source, with irregular subscripts or without, is a subscript of its own array.
pub fn accepted_sources_are_apart()
    ensures { AcceptedAreApart }
{}

/// A nest of two loops over three arrays has such an instrumented unit.
pub fn a_nest_tells_of_faults()
    ensures { TellsOfFaults mix (guarded mix) }
{
    accepted_sources_tell_of_faults();
    source_laws::a_nest_is_guarded();
}

/// So has a read of X through P, where faults in P may end the run at a check.
pub fn a_gather_tells_of_faults()
    ensures { TellsOfFaults gather (guarded gather) }
{
    accepted_sources_tell_of_faults();
    source_laws::a_gather_is_guarded();
}

/// In a read of X through P, P is the index array and no other is, and no cell is a subscript of its own array. In A[A[i]] one is.
pub fn a_gather_is_apart()
    ensures apart { AreApart gather.body }
    ensures index { IsIndexArray gather.body (codes "P") }
    ensures alone { (y : List ℕ) → IsIndexArray gather.body y → y ≡ codes "P" }
    ensures own { ¬ AreApart own_index }
{
    accepted_sources_are_apart();
    source_laws::a_gather_is_guarded();
}
