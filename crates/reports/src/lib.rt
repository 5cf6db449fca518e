//! The report on a source: a line for each array, with its class and how many read and write sites it has.
//! `specs/Texts` says what it is.
#![tactic(auto)]

mod laws;
mod text;

pub use laws::worked_reports;
pub use text::report;
