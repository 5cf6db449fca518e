//! What stands at the front of a text.

ghost use Rattle.std.specs.Prelude.{◌≡◌, ◌≤◌, ◌<◌, suc, length, slice_index, true};
ghost use Rattle.c_tree.specs.Reserved as names;
ghost use Rattle.c_lexer.specs.Reading as spec;

use crate::comment::begins_comment;
use crate::hash::{hash, nothing};
use crate::line::{Line, Over, Piece, Step};
use crate::literal::literal;
use crate::mark::mark_piece;
use crate::over::{is_gap, passed_len};
use crate::word::{is_digit, word_len, word_run};
use c_tree::{TokenKind, is_word_byte};

fn longest(printed: bool) -> usize
    ensures { result ≡ spec.longest printed }
{
    if printed { 262 } else { 255 }
}

#[tactic(auto, using(crate::proofs::Fronts::word_len_some))]
fn word_piece(most: usize, text: &[u8]) -> Piece
    requires { names.is_word_byte (slice_index text.now 0) ≡ true }
    ensures value { result ≡ spec.word_piece most text.now }
    ensures within { spec.IsWithin (length text.now) result }
{
    let n = word_len(text);
    if n <= most {
        Piece::Taken(TokenKind::Word, n)
    } else {
        Piece::Nothing
    }
}

#[tactic(auto, using(crate::proofs::Fronts::word_len_some))]
fn literal_piece(text: &[u8]) -> Piece
    requires { names.is_word_byte (slice_index text.now 0) ≡ true }
    ensures value { result ≡ spec.literal_piece text.now }
    ensures within { spec.IsWithin (length text.now) result }
{
    match literal(word_run(text)) {
        Some(value) => Piece::Taken(TokenKind::Literal(value), word_len(text)),
        None => Piece::Nothing,
    }
}

fn token_piece(printed: bool, b: u8, text: &[u8]) -> Piece
    requires { slice_index text.now 0 ≡ b }
    ensures value { result ≡ spec.token_piece printed b text.now }
    ensures within { spec.IsWithin (length text.now) result }
{
    if is_digit(b) {
        literal_piece(text)
    } else if is_word_byte(b) {
        word_piece(longest(printed), text)
    } else {
        mark_piece(text)
    }
}

fn behind_token(line: Line) -> Line
    ensures { result ≡ spec.behind_token line }
{
    match line {
        Line::Fresh | Line::Middle => Line::Middle,
        Line::Inside => Line::Inside,
    }
}

fn line_feed(line: Line) -> Step
    ensures value { result ≡ spec.line_feed line }
    ensures within { spec.IsWithin 1 result.piece }
{
    match line {
        Line::Fresh | Line::Middle => Step {
            piece: Piece::Passed(1),
            line: Line::Fresh,
        },
        Line::Inside => Step {
            piece: Piece::Taken(TokenKind::EndLine, 1),
            line: Line::Fresh,
        },
    }
}

fn hash_in(line: Line, rest: &[u8]) -> Step
    ensures value { result ≡ spec.hash_in line rest.now }
    ensures within { spec.IsWithin (suc (length rest.now)) result.piece }
{
    match line {
        Line::Fresh => hash(rest),
        Line::Middle | Line::Inside => nothing(),
    }
}

fn blank_in(line: Line, n: usize) -> Step
    ensures value { result ≡ spec.blank_in line n }
    ensures within { spec.IsWithin n result.piece }
{
    if n == 0 {
        return nothing();
    }
    Step {
        piece: Piece::Passed(n),
        line,
    }
}

fn token_in(line: Line, piece: Piece) -> Step
    ensures { result ≡ spec.token_in line piece }
{
    match piece {
        Piece::Taken(kind, n) => Step {
            piece: Piece::Taken(kind, n),
            line: behind_token(line),
        },
        Piece::Passed(_) | Piece::Nothing => nothing(),
    }
}

/// What stands at the front, and where in a line its end is.
#[tactic(auto, unfolding(crate::specs::Reading::step))]
pub fn step(printed: bool, line: Line, text: &[u8]) -> Step
    ensures value { result ≡ spec.step printed line text.now }
    ensures within { spec.IsWithin (length text.now) result.piece }
{
    match text {
        [] => nothing(),
        [b'\n', ..] => line_feed(line),
        [b'#', rest @ ..] => hash_in(line, rest),
        [b, ..] => {
            if is_gap(*b) || begins_comment(text) {
                blank_in(line, passed_len(Over::Blanks, text))
            } else {
                token_in(line, token_piece(printed, *b, text))
            }
        }
    }
}
