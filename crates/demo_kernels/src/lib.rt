//! Kernels to try the program on, made from a number: the text of a source, the text of inputs that fit it and stay
//! within its arrays, and the text of a flip that fits them.
#![tactic(auto)]

mod data;
mod demo;
mod flip;
mod generator;
mod laws;
mod source;
mod summaries;

pub use demo::{Demo, kernel_of};
pub use laws::kernels_are_usable;
pub use summaries::{Counts, summary};
