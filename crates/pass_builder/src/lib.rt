//! Counting passes: the loops of a source once more, to count the reads of one definition. Its clauses are the
//! functions of plain trees in `instrumentation`.
#![tactic(auto)]

mod passes;

pub use passes::Pass;
