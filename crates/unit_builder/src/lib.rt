//! Builds the instrumented unit of a source of its parts, and its prologue. Its clauses are the functions of plain trees
//! in `instrumentation`.
#![tactic(auto)]

mod guarded;
mod laws;
mod pieces;
mod prologue;
mod targets;

pub use guarded::instrumented_unit;
pub use laws::accepted_sources_are_small;
pub use pieces::{cell_pass, write_pass};
pub use prologue::add_given_prologue;
