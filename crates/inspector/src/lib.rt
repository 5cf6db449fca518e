//! The tables of an inspected array, and the counts that are taken from them.
#![tactic(auto)]

mod inspection;
mod pieces;

pub use inspection::inspect;
pub use pieces::Inspection;
