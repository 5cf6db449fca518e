//! The words of the command line, the statuses with which a call ends, and the lines on the error stream.
#![tactic(auto)]

mod data_refusals;
mod flip_refusals;
mod forms;
mod lines;
mod outcome;
mod refusals;
mod status;
mod words;

pub use data_refusals::data_refusal_text;
pub use flip_refusals::flip_refusal_text;
pub use lines::{cannot_write, line, no_memory, try_line, usage};
pub use outcome::{FileWord, Finish, Output, Stop};
pub use status::{Status, finished, status_of};
pub use words::{Command, WordsError, command_of};
