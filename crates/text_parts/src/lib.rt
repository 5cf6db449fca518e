//! What every part of an instrumented text is made of: names, single statements, counts of reads and writes, renamed
//! loops, and the numbers of cells. Its clauses are the functions of plain trees in `instrumentation`.
#![tactic(auto)]

mod cells;
mod counts;
mod loops;
mod names;
mod statements;

pub use cells::{
    cells_of, coordinate_words, entry, operation, row_of, shared_length, widened, words_at,
};
pub use counts::{count_registers_of_all, count_sites, count_sites_of_all};
pub use loops::{Loops, depth, rename_expr, rename_exprs, rename_tests, same_values};
pub use names::{
    active_word, coordinate, count_table, counter_word, current_table, definition_total,
    extents_at, extents_of, function_name, index_word, number_of, pass_variable, register,
    stored_word, use_count, use_total, written_word,
};
pub use statements::{assign, check, checked_array, full_value, only, repeat, set_word};
