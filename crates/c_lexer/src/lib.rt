//! The lexer: the tokens of a text, each with its place.
#![tactic(auto)]

mod comment;
mod fault;
mod hash;
mod laws;
mod line;
mod literal;
mod mark;
mod over;
mod read;
mod step;
mod word;

ghost use Rattle.std.specs.Prelude.{◌≤◌, length, IfOk};
ghost use Rattle.c_lexer.specs.Answers.{Answers, AreInOrder, AreParts};

pub use c_tree::{Token, TokenKind, Tokens};
pub use fault::LexFault;
pub use laws::{one_reading, tokens_are_parts};
use std::alloc::Global;

/// The tokens of the text by longest match. A text that has none is refused at the first byte at which
/// no token begins.
pub fn lex(alloc: Global, text: &[u8]) -> Result<Tokens, LexFault>
    requires { length text.now ≤ 16777216 }
    ensures answers { Answers text.now result }
    ensures in_order { IfOk result (λ tokens. AreInOrder 0 tokens (length text.now)) }
    ensures parts { IfOk result (AreParts text.now) }
{
    read::read(alloc, text)
}
