//! The interpreter of sources and printed texts. Names are resolved to numbered slots once; a run then
//! goes over the resolved tree, with flat vectors and counters for what it changes.
#![tactic(auto)]

mod eval;
mod exec;
mod finish;
mod head;
mod interpret;
mod laws;
mod machine;
mod names;
mod places;
mod resolve;
mod resolve_steps;
mod scene;
mod signed;
mod slots;
mod start;
mod stop;
mod subscripts;
mod tables;
mod values;
mod words;

pub use interpret::run;
