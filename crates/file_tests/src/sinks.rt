//! Sinks, of streams and in memory.

use edge::{MemSink, Numbers, Sink, SinkFailed, StdSink, write_all};
use std::io;
use std::io::{ErrorKind, Write};
use std::test::Fail;

/// A stream that takes at most three bytes at a write, and fails once it has taken as many as it may.
#[derive(Drop)]
struct Slow<'a> {
    taken: &'a mut Vec<u8>,
    room: usize,
}

impl Write for Slow<'_> {
    fn write(&mut self, buf: &[u8]) -> io::Result<usize> {
        if self.taken.len() >= self.room {
            return Err(io::Error::from(ErrorKind::StorageFull));
        }
        let count = buf.len().min(3);
        self.taken.write(&buf[..count])
    }

    fn flush(&mut self) -> io::Result<()> {
        Ok(())
    }
}

#[test]
fn writes_to_streams_and_counts_faults(rt: HostRuntime) -> Result<(), Fail> {
    let mut stream = StdSink::new(rt.stderr());
    assert_eq!(rt; write_all(&mut stream, b"written by a test\n"), Ok(()));
    assert_eq!(rt; stream.faults, 0);
    let mut taken = Vec::new(rt.alloc());
    let mut slow = StdSink::new(Slow {
        taken: &mut taken,
        room: 8,
    });
    assert_eq!(rt; write_all(&mut slow, b"abcdefgh"), Ok(()));
    assert_eq!(rt; slow.faults, 0);
    assert_eq!(rt; write_all(&mut slow, b"ij"), Err(SinkFailed));
    assert_eq!(rt; slow.faults, 1);
    assert_eq!(rt; taken.as_slice(), b"abcdefgh".as_slice());
    let mut room = [0; 3];
    let mut full = StdSink::new(room.as_mut_slice());
    assert_eq!(rt; write_all(&mut full, b"abcd"), Err(SinkFailed));
    assert_eq!(rt; full.write(b""), Ok(0));
    assert_eq!(rt; full.faults, 1);
    assert_eq!(rt; room, *b"abc");
    Ok(())
}

#[test]
fn takes_pieces_until_the_room_is_full(rt: HostRuntime) -> Result<(), Fail> {
    let mut failing = Numbers::new(rt.alloc());
    failing.push(3)?;
    let mut out = MemSink::new(rt.alloc(), 5, 2, failing)?;
    assert_eq!(rt; write_all(&mut out, b"abcd"), Ok(()));
    assert_eq!(rt; write_all(&mut out, b"ef"), Err(SinkFailed));
    assert_eq!(rt; write_all(&mut out, b"ef"), Err(SinkFailed));
    assert_eq!(rt; out.bytes.as_slice(), b"abcde".as_slice());
    assert_eq!(rt; (out.calls, out.faults), (5, 2));
    Ok(())
}
