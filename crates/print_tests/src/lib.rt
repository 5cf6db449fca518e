//! Tests of texts that are read, printed, and read again.
#![tactic(auto)]

#[cfg(test)]
mod printed_again;
#[cfg(test)]
mod rows;
