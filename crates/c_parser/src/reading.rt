//! From the tokens of a text to its unit, or to why it has none.

ghost use Rattle.std.specs.Prelude.{◌≤◌, length};
ghost use Rattle.c_lexer.specs.Answers.{AreInOrder};
ghost use Rattle.c_parser.specs.Answers.{IsAmong, IsUnitOf};

use crate::terminals::terminals;
use crate::unit::unit_of;
use c_lexer::LexFault;
use c_tree::{Refusal, Token, Tokens, Unit};
use expression_parser::ParseError;
use grammar_reading::{read_is_unit, unit_is_read};
use std::alloc::Global;

/// Where reading stopped: the first byte of the token before which so many were left, or the text's
/// length.
fn place_of(left: usize, tokens: &[Token], text: &[u8]) -> u32
    requires { length text.now ≤ 16777216 }
    ensures { IsAmong text.now tokens.now result }
{
    if left <= tokens.len() {
        if let Some(token) = tokens.get(tokens.len() - left) {
            return token.start;
        }
    }
    text.len() as u32
}

/// The unit of these tokens.
pub fn unit_among(alloc: Global, text: &[u8], tokens: &[Token]) -> Result<Unit, Refusal>
    requires small { length text.now ≤ 16777216 }
    requires in_order { AreInOrder 0 tokens.now (length text.now) }
    ensures { IsUnitOf text.now tokens.now result }
{
    read_is_unit();
    unit_is_read();
    let terminals = terminals(alloc, text, tokens)?;
    match unit_of(alloc, text, terminals.as_slice()) {
        Ok(unit) => Ok(unit),
        Err(ParseError::Memory) => Err(Refusal::OutOfMemory),
        Err(ParseError::Syntax(left)) => Err(Refusal::Syntax {
            byte: place_of(left, tokens, text),
        }),
    }
}
