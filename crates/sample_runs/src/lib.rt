//! Sources that tests run on the values of data texts, and what is asked of the ends of their runs.
#![tactic(auto)]

pub mod ends;
pub mod runs;
pub mod texts;
