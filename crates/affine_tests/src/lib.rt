//! Worked sums of expressions over the names `i` and `n`: their sums and multiples, their intervals,
//! and the differences that they say.
#![tactic(auto)]

#[cfg(test)]
mod differences;
#[cfg(test)]
mod expressions;
#[cfg(test)]
mod intervals;
#[cfg(test)]
mod readings;
#[cfg(test)]
mod sums;
