//! Comments.

ghost use Rattle.std.specs.Prelude.{◌≡◌, ◌+◌, ◌≤◌, length, IfSome, true, drop, option_map};
ghost use Rattle.c_tree.specs.Grammar.Tokens as grammar;
ghost use Rattle.c_lexer.specs.Reading as spec;

use text_pieces::line_len;

/// The text past so many bytes.
pub fn past(text: &[u8], n: usize) -> &[u8]
    requires { n ≤ length text.now }
    ensures value { result.now ≡ drop n text.now }
    ensures count { n + length result.now ≡ length text.now }
{
    &text[n..]
}

pub fn begins_comment(text: &[u8]) -> bool
    ensures { result ≡ grammar.begins_comment text.now }
{
    text.starts_with(b"//") || text.starts_with(b"/*")
}

/// The length up to and with the first `*/`.
fn close_len(text: &[u8]) -> Option<usize>
    ensures value { result ≡ spec.close_len text.now }
    ensures bound { IfSome result (λ n. (2 ≤ n) × (n ≤ length text.now)) }
{
    let mut at = 0;
    let mut rest = text;
    'close: while let [_, after @ ..] = rest {
        if rest.starts_with(b"*/") {
            return Some(at + 2);
        }
        at += 1;
        rest = after;
    }
    None
}

/// The length of the comment that begins here, if it is closed.
pub fn comment_len(text: &[u8]) -> Option<usize>
    requires { grammar.begins_comment text.now ≡ true }
    ensures value { result ≡ spec.comment_len text.now }
    ensures bound { IfSome result (λ n. (1 ≤ n) × (n ≤ length text.now)) }
{
    if text.starts_with(b"//") {
        return Some(line_len(text));
    }
    Some(close_len(past(text, 2))? + 2)
}
