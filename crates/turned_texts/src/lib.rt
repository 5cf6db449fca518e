//! Instrumented texts with one thing wrong, and what each of them fails to do. Each law says that a promise of instrumented
//! units, over all sound inputs and faults, is false of such a text.
#![tactic(auto)]

pub mod accesses;
pub mod counts;
pub mod indices;
pub mod right;
pub mod totals;
