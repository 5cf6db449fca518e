//! Tests of flip files: texts, and what is answered.
#![tactic(auto)]

#[cfg(test)]
mod flips;
#[cfg(test)]
mod given;
