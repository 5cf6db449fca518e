//! How a refusal of a flip file is written.

ghost use Rattle.std.specs.Prelude.{◌≡◌};
ghost use Rattle.command_line.specs.FlipRefusals.{flip_refusal_text as text_of};

use fault_plan::FlipRefusal;

/// Its number and name.
pub fn flip_refusal_text(refusal: FlipRefusal) -> &'static [u8]
    ensures { result.now ≡ text_of refusal }
{
    match refusal {
        FlipRefusal::Syntax => b"F1 Syntax",
        FlipRefusal::UnknownArray => b"F2 UnknownArray",
        FlipRefusal::CellOutside => b"F3 CellOutside",
        FlipRefusal::BitOutside => b"F4 BitOutside",
        FlipRefusal::OutOfMemory => b"out of memory",
    }
}
