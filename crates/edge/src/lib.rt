//! Files and sinks as a program meets them: what each tells of itself, what its calls do to that,
//! and a count of its faults. `MemShelf` and `MemSink` tell everything, `FileShelf` and `StdSink`
//! nothing but their counts.
#![tactic(auto)]

mod file_shelf;
mod lists;
mod mem_shelf;
mod mem_sink;
mod shelf;
mod sink;
mod std_sink;

pub use file_shelf::FileShelf;
pub use lists::{AskedList, BoundedBytes, ByteList, FileList, NamedFile, Numbers, OutOfMemory};
pub use mem_shelf::MemShelf;
pub use mem_sink::MemSink;
pub use shelf::{Loaded, Shelf, ShelfFault};
pub use sink::{Sink, SinkFailed, write_all};
pub use std_sink::StdSink;
