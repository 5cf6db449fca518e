//! What an instrumented unit is worth: it ends balanced with its source's output, and reports a fault exactly where the cell's next access is a read.
#![tactic(auto)]

ghost use Rattle.guard_laws.specs.Guards.{ReadyAreGuarded, UninspectedHaveNoIndices};

/// Each source that has these forms, whatever inputs fit, is guarded by its instrumented unit.
pub fn ready_sources_are_guarded()
    ensures { ReadyAreGuarded }
{
    instrumentation_laws::every_text_follows();
    instrumentation_laws::every_quiet_text_ends();
    instrumentation_laws::every_unit_follows();
    instrumentation_laws::every_kept_unit_follows();
    instrumentation_laws::every_kept_unit_balances();
    instrumentation_laws::every_kept_unit_tells();
    instrumentation_laws::kept_units_are_counted();
    instrumentation_laws::regular_units_are_counted();
    pass_laws::passes_go_on();
    pass_laws::passes_count();
    inspection_laws::tables_hold_uses();
    inspection_laws::tables_end_exactly();
    inspection_laws::misses_are_accesses();
    inspection_laws::units_count();
    inspection_laws::units_make_turns();
}

/// A source of which no array is inspected has no index array: each fault in it is told by its array alone.
pub fn uninspected_sources_have_no_indices()
    ensures { UninspectedHaveNoIndices }
{}
