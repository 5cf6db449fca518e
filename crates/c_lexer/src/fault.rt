//! Why a text isn't read.

ghost use Rattle.std.specs.Prelude.{◌≡◌};
ghost use Rattle.c_lexer.specs.declared.fault.LexFault.TheVariants as fault;

use std::alloc::AllocError;

/// Why a text has no tokens.
#[derive(Clone, Copy, Debug, PartialEq, Eq)]
pub enum LexFault {
    /// No token begins at this byte, counted from 0, the first such.
    Lexical { byte: u32 },
    OutOfMemory,
}

impl From<AllocError> for LexFault {
    ghost from_gives = { λ _ f. f ≡ fault.OutOfMemory };

    fn from(_error: AllocError) -> LexFault {
        LexFault::OutOfMemory
    }
}
