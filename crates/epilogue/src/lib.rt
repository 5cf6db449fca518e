//! The first and the last part of an instrumented unit: the prologue, with pieces that are given,
//! and the comparison of all totals.
#![tactic(auto)]

mod ends;
mod laws;

pub use ends::{epilogue, prologue};
pub use laws::{prologues_fill, prologues_keep, prologues_turn};
