//! Builds the instrumented unit of a kernel's source, and says what it is worth.
#![tactic(auto)]

mod unit;

pub use unit::{Options, instrument};
