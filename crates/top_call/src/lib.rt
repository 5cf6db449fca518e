//! The top call, `balance`: words, files to read and streams to write in, a status out. It prints the
//! instrumented text of a source, and runs a source, its instrumented unit or a printed text on a data
//! file, with a flip of one bit or without.
#![tactic(auto)]

mod call;
mod checking;
mod demos;
mod faults;
mod inputs;
mod judging;
mod runnable;
mod runs;
mod stages;

pub use call::balance;
