//! What is in scope at an item of a unit: the names that its head declares, the loops around the item and the tables before it.
#![tactic(auto)]

pub mod declared;
pub mod interval;
mod known;
pub mod name_set;
pub mod scope;

pub use declared::Declared;
pub use interval::Interval;
pub use name_set::NameSet;
pub use scope::{Around, Scope};
