//! The grammar as functions that read lists of tokens, and the laws that they read exactly what the relations of `c_tree` derive.
#![tactic(auto)]

mod block_laws;
mod expression_laws;
mod head_laws;
mod rules;
mod unit_laws;

pub use block_laws::{read_is_statement, statement_is_read};
pub use expression_laws::{
    condition_is_read, edges_of_casts, read_is_condition, read_is_spelled, spelled_is_read,
};
pub use head_laws::{param_is_read, printed_heads_are_read, read_is_param};
pub use rules::Rules;
pub use unit_laws::{one_unit, read_is_unit, unit_is_read, unit_or_none};
