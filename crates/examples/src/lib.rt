//! Worked examples: what the definitions of accesses, uses, totals and runs give for closed programs. Each law states
//! the numbers that a reader can work out by hand.
#![tactic(auto)]

pub mod broadcast;
pub mod choices;
pub mod gather;
pub mod inspected;
pub mod instrumented;
pub mod jacobi;
pub mod overlap;
pub mod product;
pub mod shift;
