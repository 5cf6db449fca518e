// A standard stream, or any other writer of std. What it holds isn't told.
ghost use Rattle.std.specs.Prelude.{◌≡◌, None};

use crate::{Sink, SinkFailed};
use std::io::Write;

/// Writes to a stream, and counts its errors. A write that takes nothing of a piece is an error too.
#[derive(Drop)]
pub struct StdSink<W: Write> {
    stream: W,
    pub faults: u64,
}

impl<W: Write> StdSink<W> {
    /// No fault yet.
    pub fn new(stream: W) -> Self
        ensures { result.faults ≡ 0 }
    {
        StdSink { stream, faults: 0 }
    }
}

impl<W: Write> Sink for StdSink<W> {
    ghost held = { λ s. record { bytes = None; faults = s.faults } };

    fn write(&mut self, piece: &[u8]) -> Result<usize, SinkFailed> {
        match self.stream.write(piece) {
            Ok(taken) if taken > 0 || piece.is_empty() => Ok(taken),
            _ => {
                self.faults = self.faults.saturating_add(1);
                Err(SinkFailed)
            }
        }
    }
}
