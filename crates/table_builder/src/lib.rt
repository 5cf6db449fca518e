//! The tables of inspected arrays, the walks that fill them, and the pieces that count from them. Its clauses are the
//! functions of plain trees in `instrumentation`.
#![tactic(auto)]

mod entries;
mod inspected;
mod table_words;
mod tables;
mod walks;

pub use inspected::is_inspected;
pub use table_words::add_table_words;
pub use tables::{add_builds, at_write, build, initial};
