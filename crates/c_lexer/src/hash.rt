//! Lines that begin with `#`.

ghost use Rattle.std.specs.Prelude.{◌≡◌, ◌+◌, ◌≤◌, length};
ghost use Rattle.c_tree.specs.Grammar.Tokens as grammar;
ghost use Rattle.c_lexer.specs.Reading as spec;

use crate::comment::past;
use crate::line::{Line, Over, Piece, Step};
use crate::over::all_len;
use crate::word::first_word;
use c_tree::TokenKind;

fn is_line_end(text: &[u8]) -> bool
    ensures { result ≡ grammar.is_line_end text.now }
{
    match text {
        [] => true,
        [b, ..] => *b == b'\n',
    }
}

pub fn nothing() -> Step
    ensures { result ≡ spec.nothing }
{
    Step {
        piece: Piece::Nothing,
        line: Line::Middle,
    }
}

/// A line that is skipped, of which this text stands behind its `#`.
fn foreign(text: &[u8]) -> Step
    ensures value { result ≡ spec.foreign text.now }
    ensures within { spec.IsWithin (1 + length text.now) result.piece }
{
    Step {
        piece: Piece::Passed(1 + all_len(Over::Anything, text)),
        line: Line::Middle,
    }
}

#[tactic(auto, unfolding(crate::specs::Reading::pragma))]
fn pragma(text: &[u8], n: usize, rest: &[u8]) -> Step
    requires { n + length rest.now ≤ length text.now }
    ensures value { result ≡ spec.pragma text.now n rest.now }
    ensures within { spec.IsWithin (1 + length text.now) result.piece }
{
    if is_line_end(rest) {
        return foreign(text);
    }
    let word = first_word(rest);
    if word == b"balance".as_slice() {
        Step {
            piece: Piece::Taken(TokenKind::Directive, n + 8),
            line: Line::Inside,
        }
    } else if word.is_empty() {
        nothing()
    } else {
        foreign(text)
    }
}

#[tactic(auto, unfolding(crate::specs::Reading::hash_word))]
fn hash_word(text: &[u8], n: usize, rest: &[u8]) -> Step
    requires { n + length rest.now ≤ length text.now }
    ensures value { result ≡ spec.hash_word text.now n rest.now }
    ensures within { spec.IsWithin (1 + length text.now) result.piece }
{
    let word = first_word(rest);
    if word == b"include".as_slice() {
        return foreign(text);
    }
    if word != b"pragma".as_slice() {
        return nothing();
    }
    let behind = past(rest, 6);
    let gap = all_len(Over::Blanks, behind);
    pragma(text, n + 6 + gap, past(behind, gap))
}

/// What stands at a `#` that begins a line, of which this text stands behind it.
#[tactic(auto, unfolding(crate::specs::Reading::hash))]
pub fn hash(text: &[u8]) -> Step
    ensures value { result ≡ spec.hash text.now }
    ensures within { spec.IsWithin (1 + length text.now) result.piece }
{
    let gap = all_len(Over::Blanks, text);
    hash_word(text, gap, past(text, gap))
}
