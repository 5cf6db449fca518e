//! Pieces that the texts of sources and of data files share: fronts of a text, and numbers.
#![tactic(auto)]

mod fronts;
mod numbers;

pub use fronts::line_len;
pub use numbers::{decimal_number, number};
