//! Tests of what sources and printed texts are refused for: the lowest number that holds anywhere, and
//! the least item at which it does.
#![tactic(auto)]

#[cfg(test)]
mod accepted;
#[cfg(test)]
mod counts;
#[cfg(test)]
mod dimensions;
#[cfg(test)]
mod extents;
#[cfg(test)]
mod index_arrays;
#[cfg(test)]
mod intervals;
#[cfg(test)]
mod kinds;
#[cfg(test)]
mod literals;
#[cfg(test)]
mod names;
#[cfg(test)]
mod not_affine;
#[cfg(test)]
mod printed_texts;
#[cfg(test)]
mod ranges;
#[cfg(test)]
mod reserved_names;
#[cfg(test)]
mod small_terms;
#[cfg(test)]
mod targets;
#[cfg(test)]
mod texts;
