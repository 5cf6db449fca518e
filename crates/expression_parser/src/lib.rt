//! The parser of expressions and conditions: no call is nested by parentheses.
#![tactic(auto)]

mod build;
mod condition;
mod error;
mod expression;
mod steps;
mod terminal;

pub use build::{Built, name_of};
pub use condition::conds;
pub use error::ParseError;
pub use expression::{full_expression, named, parse_expression, word};
pub use steps::{after, expect, front_rel, number};
pub use terminal::Terminal;
