//! Texts that tests read, what is found in them, and trees as tests write them down.
#![tactic(auto)]

pub mod shown;
pub mod texts;
