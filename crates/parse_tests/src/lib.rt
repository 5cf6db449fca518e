//! Tests of texts that are read and refused: their tokens, their trees, and where reading stops.
#![tactic(auto)]

#[cfg(test)]
mod expressions;
#[cfg(test)]
mod fronts;
#[cfg(test)]
mod heads;
#[cfg(test)]
mod layouts;
#[cfg(test)]
mod lexes;
#[cfg(test)]
mod limits;
#[cfg(test)]
mod made;
#[cfg(test)]
mod places;
#[cfg(test)]
mod printed_texts;
#[cfg(test)]
mod statements;
#[cfg(test)]
mod sums;
