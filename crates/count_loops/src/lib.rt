//! Counting passes of a kernel's source: each sets the count to the uses of one definition.
#![tactic(auto)]

mod counting;
mod laws;
mod numbers;
mod start;

pub use counting::pass;
pub use laws::a_gather_has_passes;
pub use start::Start;
