//! Tests of the words of the command line and of the texts of demonstrations.
#![tactic(auto)]

#[cfg(test)]
mod texts;
#[cfg(test)]
mod words;
