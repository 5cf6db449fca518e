//! The instrumented body of a source: loads, checks and stores, with the pieces that count. Its clauses are the
//! functions of plain trees in `instrumentation`.
#![tactic(auto)]

mod body;

pub use body::{add_piece, instrumented, read_cell};
