// A sink: where bytes are written to.
ghost use Rattle.std.specs.Prelude.{◌≡◌};
ghost use Rattle.edge.specs.Sink.{Held, Takes, Writes};

/// The one error of a write. Nothing of the piece was taken.
#[derive(Clone, Copy, Debug, PartialEq, Eq)]
pub struct SinkFailed;

/// The bytes written so far, and a count of faults that never falls. A write takes no memory.
pub trait Sink {
    /// What the sink tells: its bytes, or None, and the count.
    ghost held: { Self → Held };

    /// Takes a prefix of the piece, and says how many bytes it took.
    fn write(&mut self, piece: &[u8]) -> Result<usize, SinkFailed>
        ensures { Takes (held self.old) (held self.new) piece.now result };
}

/// Writes the whole text, in as many writes as the sink wants. Takes no memory.
pub fn write_all<O: Sink>(out: &mut O, text: &[u8]) -> Result<(), SinkFailed>
    ensures { Writes (O.held out.old) (O.held out.new) text.now result }
{
    let mut rest = text;
    while !rest.is_empty() {
        let taken = out.write(rest)?;
        rest = &rest[taken..];
    }
    Ok(())
}
