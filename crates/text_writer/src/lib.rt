//! Writes a text that grows in memory. A want of memory is remembered to the end of the text, so that no call before
//! that can fail.
#![tactic(auto)]

mod writer;

pub use writer::Writer;
