//! The loop over a text.

ghost use Rattle.std.specs.Prelude.{◌≡◌, ◌+◌, ◌≤◌, drop, length};
ghost use Rattle.c_lexer.specs.Reading as spec;
ghost use Rattle.c_lexer.specs.Agrees.{Agrees};

use crate::fault::LexFault;
use crate::line::{Line, Piece};
use crate::step::step;
use c_tree::{Token, TokenKind, Tokens, is_printed, preamble};
use std::alloc::Global;

fn make_token(kind: TokenKind, start: usize, n: usize) -> Token
    requires { start + n ≤ 16777216 }
    ensures { result ≡ record { kind = kind; start = start; end = start + n } }
{
    Token {
        kind,
        start: start as u32,
        end: (start + n) as u32,
    }
}

/// The tokens from this place on, behind those that were found.
fn read_from(found: Tokens, printed: bool, start: usize, text: &[u8]) -> Result<Tokens, LexFault>
    requires small { length text.now ≤ 16777216 }
    requires within { start ≤ length text.now }
    ensures { Agrees (spec.behind_tokens found (spec.tokens_from printed Line.Fresh 0 start (drop start text.now))) result }
{
    let mut tokens = found;
    let mut at = start;
    let mut line = Line::Fresh;
    'text: while at < text.len() {
        let step = step(printed, line, &text[at..]);
        match step.piece {
            Piece::Passed(n) => at += n,
            Piece::Taken(kind, n) => {
                tokens.push(make_token(kind, at, n))?;
                at += n;
            }
            Piece::Nothing => return Err(LexFault::Lexical { byte: at as u32 }),
        }
        line = step.line;
    }
    if line == Line::Inside {
        tokens.push(make_token(TokenKind::EndLine, at, 0))?;
    }
    Ok(tokens)
}

/// The tokens of a text, by the functions that read it.
#[tactic(auto, unfolding(crate::specs::Reading::tokens_of))]
pub fn read(alloc: Global, text: &[u8]) -> Result<Tokens, LexFault>
    requires { length text.now ≤ 16777216 }
    ensures { Agrees (spec.tokens_of text.now) result }
{
    let mut tokens = Tokens::new(alloc);
    if !is_printed(text) {
        return read_from(tokens, false, 0, text);
    }
    let behind = preamble().len();
    tokens.push(make_token(TokenKind::Preamble, 0, behind))?;
    read_from(tokens, true, behind, text)
}
