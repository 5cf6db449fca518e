//! Marks.

ghost use Rattle.std.specs.Prelude.{◌≡◌, length};
ghost use Rattle.c_lexer.specs.Reading as spec;

use crate::line::Piece;
use c_tree::TokenKind;

/// Whether two bytes are a mark together.
fn is_pair(b: u8, c: u8) -> bool
    ensures { result ≡ spec.is_pair b c }
{
    (c == b'='
        && matches!(
            b,
            b'+' | b'-' | b'*' | b'&' | b'|' | b'^' | b'<' | b'>' | b'=' | b'!'
        ))
        || (b == c && matches!(b, b'<' | b'>' | b'&' | b'+' | b'-'))
}

fn is_single(b: u8) -> bool
    ensures { result ≡ spec.is_single b }
{
    matches!(
        b,
        b'(' | b')'
            | b'['
            | b']'
            | b'{'
            | b'}'
            | b';'
            | b','
            | b'='
            | b'+'
            | b'-'
            | b'*'
            | b'/'
            | b'%'
            | b'&'
            | b'|'
            | b'^'
            | b'~'
            | b'<'
            | b'>'
    )
}

fn single_piece(b: u8) -> Piece
    ensures value { result ≡ spec.single_piece b }
    ensures within { spec.IsWithin 1 result }
{
    if is_single(b) {
        Piece::Taken(TokenKind::Mark, 1)
    } else {
        Piece::Nothing
    }
}

pub fn mark_piece(text: &[u8]) -> Piece
    ensures value { result ≡ spec.mark_piece text.now }
    ensures within { spec.IsWithin (length text.now) result }
{
    match text {
        [b, c, ..] if is_pair(*b, *c) => Piece::Taken(TokenKind::Mark, 2),
        [b, ..] => single_piece(*b),
        [] => Piece::Nothing,
    }
}
