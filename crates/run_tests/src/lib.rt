//! Tests of runs, of sources and of printed texts written by hand, whose ends were worked out by hand.
#![tactic(auto)]

#[cfg(test)]
mod exposures;
#[cfg(test)]
mod gathers;
#[cfg(test)]
mod kernels;
#[cfg(test)]
mod language;
#[cfg(test)]
mod outside;
#[cfg(test)]
mod printed_runs;
#[cfg(test)]
mod printed_texts;
#[cfg(test)]
mod struck;
#[cfg(test)]
mod tables;
#[cfg(test)]
mod trials;
