//! Tests of long texts that open something again and again, in a crate of their own since a try before
//! any proof takes minutes for them.
#![tactic(auto)]

#[cfg(test)]
mod hostile;
