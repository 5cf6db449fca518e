//! Tests of what reads and writes files: shelves, sinks and data texts.
#![tactic(auto)]

#[cfg(test)]
mod counted_files;
#[cfg(test)]
mod data;
#[cfg(test)]
mod shelves;
#[cfg(test)]
mod sinks;
