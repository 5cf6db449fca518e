//! What is passed over in a line.

ghost use Rattle.std.specs.Prelude.{◌≡◌, ◌≤◌, length};
ghost use Rattle.c_tree.specs.Grammar.Tokens as grammar;
ghost use Rattle.c_lexer.specs.Reading as spec;

use crate::comment::{begins_comment, comment_len, past};
use crate::line::Over;

/// A blank that isn't a line feed.
pub fn is_gap(b: u8) -> bool
    ensures { result ≡ grammar.is_gap b }
{
    matches!(b, b' ' | b'\t' | b'\r' | 12)
}

fn goes_over(over: Over, b: u8) -> bool
    ensures { result ≡ spec.goes_over over b }
{
    match over {
        Over::Blanks => is_gap(b),
        Over::Anything => b != b'\n',
    }
}

/// The length of the comment or the byte at the front that is passed over, and 0 where none is.
pub fn passed_len(over: Over, text: &[u8]) -> usize
    ensures value { result ≡ spec.passed_len over text.now }
    ensures bound { result ≤ length text.now }
{
    match text {
        [] => 0,
        [b, ..] => {
            if begins_comment(text) {
                comment_len(text).unwrap_or(0)
            } else if goes_over(over, *b) {
                1
            } else {
                0
            }
        }
    }
}

/// The length of all that is passed over at the front.
pub fn all_len(over: Over, text: &[u8]) -> usize
    ensures value { result ≡ spec.all_len over text.now }
    ensures bound { result ≤ length text.now }
{
    let mut at = 0;
    let mut piece = passed_len(over, text);
    'pieces: while piece > 0 {
        at += piece;
        piece = passed_len(over, past(text, at));
    }
    at
}
