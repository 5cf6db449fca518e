//! Texts of sources with irregular reads.

ghost use Rattle.guard_laws.specs.Guards.{EndsBalanced, MakesSameAccesses, ReportsExactly};
ghost use Rattle.turned_texts.specs.Sources.{chase, pick};
ghost use Rattle.turned_texts.specs.IndexTexts.{checks_nothing, checks_another_word, checks_late, checks_the_other_extent, loads_indices_twice, numbers_no_write, counts_the_next_write, enters_numbers, counts_on, builds_late, counts_no_index_cell};

/// With no check, with one of another word, and with one behind the read, a fault that leads the read out of the array isn't reported.
pub fn indices_are_checked_before_the_read()
    ensures unchecked { ¬ ReportsExactly chase (checks_nothing chase) }
    ensures another { ¬ ReportsExactly chase (checks_another_word chase) }
    ensures late { ¬ ReportsExactly chase (checks_late chase) }
{}

/// With checks against the extent of another dimension, a run without a fault ends at one.
pub fn indices_are_checked_by_their_extent()
    ensures { ¬ EndsBalanced pick (checks_the_other_extent pick) }
{}

/// With index cells loaded twice there are 12 accesses and not 9.
pub fn index_cells_are_loaded_once()
    ensures { ¬ MakesSameAccesses chase (loads_indices_twice chase) }
{}

/// Where a write isn't numbered, or takes the count of the next, runs without a fault aren't balanced.
pub fn writes_are_numbered()
    ensures unnumbered { ¬ EndsBalanced chase (numbers_no_write chase) }
    ensures next { ¬ EndsBalanced chase (counts_the_next_write chase) }
{}

/// So it is where an entry isn't relative to its cell, where the number of writes isn't set back, and where the tables are built behind the cells.
pub fn tables_are_built_first()
    ensures entries { ¬ EndsBalanced chase (enters_numbers chase) }
    ensures number { ¬ EndsBalanced chase (counts_on chase) }
    ensures late { ¬ EndsBalanced chase (builds_late chase) }
{}

/// And where an index array's own reads are left out of its counts.
pub fn index_cells_are_counted()
    ensures { ¬ EndsBalanced chase (counts_no_index_cell chase) }
{}
