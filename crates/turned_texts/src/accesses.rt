//! Texts that make other accesses.

ghost use Rattle.guard_laws.specs.Guards.{MakesSameAccesses, ReportsExactly};
ghost use Rattle.turned_texts.specs.Sources.{sums};
ghost use Rattle.turned_texts.specs.Texts.{loads_twice, reads_back};

/// With each cell loaded twice there are 14 accesses and not 8, and a fault in a cell that is written next is reported.
pub fn cells_are_loaded_once()
    ensures accesses { ¬ MakesSameAccesses sums (loads_twice sums) }
    ensures reports { ¬ ReportsExactly sums (loads_twice sums) }
{}

/// With the stored value read back there are 10 accesses and not 8, and a fault between the store and that read isn't reported.
pub fn stored_values_are_kept()
    ensures accesses { ¬ MakesSameAccesses sums (reads_back sums) }
    ensures reports { ¬ ReportsExactly sums (reads_back sums) }
{}
