// A sink in memory, which tells everything.
ghost use Rattle.std.specs.Prelude.{◌≡◌, ◌≤◌, [], length, IfOk};
ghost use Rattle.edge.specs.Sink.{Takes};

use crate::{BoundedBytes, Numbers, OutOfMemory, Sink, SinkFailed};
use std::alloc::Global;

/// Takes at most `most` bytes at a write, and `room` in all. The writes whose numbers, from 1, stand
/// in `failing` fail, as do those of a piece that isn't empty where no room is left. `calls` is the
/// number of the last write.
#[derive(Debug, Drop)]
pub struct MemSink {
    pub bytes: BoundedBytes,
    pub room: usize,
    pub most: usize,
    pub failing: Numbers,
    pub calls: u64,
    pub faults: u64,
    pub ghost has_room: { bytes.room ≡ room },
    pub ghost takes_some: { 1 ≤ most },
}

impl MemSink {
    /// Nothing written and no fault yet. Takes the memory of the room, or answers `OutOfMemory`.
    pub fn new(
        alloc: Global,
        room: usize,
        most: usize,
        failing: Numbers,
    ) -> Result<Self, OutOfMemory>
        requires { 1 ≤ most }
        ensures bytes { IfOk result (λ sink. sink.bytes.items ≡ []) }
        ensures room { IfOk result (λ sink. sink.room ≡ room) }
        ensures most { IfOk result (λ sink. sink.most ≡ most) }
        ensures failing { IfOk result (λ sink. sink.failing ≡ failing) }
        ensures calls { IfOk result (λ sink. sink.calls ≡ 0) }
        ensures faults { IfOk result (λ sink. sink.faults ≡ 0) }
    {
        let bytes = BoundedBytes::with_room(alloc, room)?;
        Ok(MemSink {
            bytes,
            room,
            most,
            failing,
            calls: 0,
            faults: 0,
        })
    }
}

impl Sink for MemSink {
    ghost use Rattle.edge.specs.MemSink.{sink_held, write_number, write_answer};

    ghost held = { sink_held };

    fn write(&mut self, piece: &[u8]) -> Result<usize, SinkFailed>
        ensures takes { Takes (sink_held self.old) (sink_held self.new) piece.now result }
        ensures room { self.new.room ≡ self.old.room }
        ensures most { self.new.most ≡ self.old.most }
        ensures failing { self.new.failing ≡ self.old.failing }
        ensures calls { self.new.calls ≡ write_number self.old }
        ensures answer { result ≡ write_answer self.old (length piece.now) }
    {
        self.calls = self.calls.saturating_add(1);
        let left = self.bytes.left();
        if self.failing.contains(self.calls) || (!piece.is_empty() && left == 0) {
            self.faults = self.faults.saturating_add(1);
            return Err(SinkFailed);
        }
        let taken = piece.len().min(self.most.min(left));
        self.bytes.append(&piece[..taken]);
        Ok(taken)
    }
}
