//! Tests that go across crates: texts that are instrumented and run, copies of trees, and what is
//! displayed.
#![tactic(auto)]

#[cfg(test)]
mod copies;
#[cfg(test)]
mod gathers;
#[cfg(test)]
mod instruments;
#[cfg(test)]
mod made;
#[cfg(test)]
mod prints;
#[cfg(test)]
mod refusals;
#[cfg(test)]
mod runs;
