//! Tests of exposure: every flip of the first or the last bit of a cell, at every place of a run, against
//! the accesses of the source written by hand.
#![tactic(auto)]

#[cfg(test)]
mod flipped;
#[cfg(test)]
mod kernels;
