//! The parser of statements. Blocks and empty statements, which leave no trace in the tree, are
//! read in a loop: no call is nested deeper than the statements that are read are high.
#![tactic(auto)]

mod assignment;
mod check;
mod loop_head;
mod statements;
mod tokens;

pub use statements::{block, statement, unbraced};
pub use tokens::{Span, name, this_name, this_number};
