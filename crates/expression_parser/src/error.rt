//! Why tokens are no text of the grammar.

ghost use Rattle.std.specs.Prelude.{◌≡◌};
ghost use Rattle.expression_parser.specs.declared.error.ParseError.TheVariants.{Memory};

use c_tree::OutOfMemory;
use std::alloc::{AllocError, AllocFailed};

#[derive(Debug, Drop)]
pub enum ParseError {
    Memory,
    /// How many tokens were left.
    Syntax(usize),
}

impl From<AllocError> for ParseError {
    ghost from_gives = { λ _ e. e ≡ Memory };

    fn from(_e: AllocError) -> ParseError {
        ParseError::Memory
    }
}

impl<T: Drop> From<AllocFailed<T>> for ParseError {
    ghost from_gives = { λ _ e. e ≡ Memory };

    fn from(_e: AllocFailed<T>) -> ParseError {
        ParseError::Memory
    }
}

impl From<OutOfMemory> for ParseError {
    ghost from_gives = { λ _ e. e ≡ Memory };

    fn from(_e: OutOfMemory) -> ParseError {
        ParseError::Memory
    }
}
