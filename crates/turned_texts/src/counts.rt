//! Texts that count otherwise. A run of each without a fault isn't balanced.

ghost use Rattle.guard_laws.specs.Guards.{EndsBalanced};
ghost use Rattle.turned_texts.specs.Sources.{sums};
ghost use Rattle.turned_texts.specs.Texts.{leaves_out_initial_values, counts_beyond_the_next_write, starts_active, keeps_its_counter};

/// With no piece in the prologue, where each count stays at 0.
pub fn initial_values_are_counted()
    ensures { ¬ EndsBalanced sums (leaves_out_initial_values sums) }
{}

/// With passes that a write of the cell doesn't end.
pub fn passes_end_at_the_next_write()
    ensures { ¬ EndsBalanced sums (counts_beyond_the_next_write sums) }
{}

/// With passes of writes that begin as if the write had been made.
pub fn passes_begin_at_their_write()
    ensures { ¬ EndsBalanced sums (starts_active sums) }
{}

/// With passes that count on from where the one before ended.
pub fn passes_begin_at_0()
    ensures { ¬ EndsBalanced sums (keeps_its_counter sums) }
{}
