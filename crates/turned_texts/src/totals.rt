//! Texts that keep other totals.

ghost use Rattle.guard_laws.specs.Guards.{EndsBalanced, HasTotals, NamesTheArray, ReportsExactly};
ghost use Rattle.turned_texts.specs.Sources.{sums, fill};
ghost use Rattle.turned_texts.specs.Texts.{adds_no_definition, adds_nothing, shares_totals, masks_totals};

/// With nothing added to the definition totals, runs without a fault aren't balanced.
pub fn definitions_are_added()
    ensures { ¬ EndsBalanced sums (adds_no_definition sums) }
{}

/// With nothing added to any total, no fault is reported.
pub fn totals_are_kept()
    ensures reports { ¬ ReportsExactly sums (adds_nothing sums) }
    ensures totals { ¬ HasTotals sums (adds_nothing sums) }
{}

/// With one pair of totals for two arrays, a fault in the second is told as one in the first.
pub fn arrays_have_totals()
    ensures names { ¬ NamesTheArray fill (shares_totals fill) }
    ensures totals { ¬ HasTotals fill (shares_totals fill) }
{}

/// With totals of 64 bits, a fault in the highest bit of a cell that is read twice isn't reported.
pub fn totals_are_wide()
    ensures { ¬ ReportsExactly sums (masks_totals sums) }
{}
