//! Literals.

ghost use Rattle.std.specs.Prelude.{◌≡◌, ◌≤◌, length};
ghost use Rattle.std.specs.List.{prefix_len};
ghost use Rattle.std.specs.Char.{is_ascii_hexdigit};
ghost use Rattle.c_tree.specs.Reserved as names;
ghost use Rattle.c_lexer.specs.Reading as spec;

use crate::word::is_digit;
use text_pieces::{decimal_number, number};

fn decimal_len(text: &[u8]) -> usize
    ensures value { result ≡ prefix_len names.is_digit text.now }
    ensures bound { result ≤ length text.now }
{
    text.iter().take_while(|b| is_digit(**b)).count()
}

fn hexadecimal_len(text: &[u8]) -> usize
    ensures value { result ≡ prefix_len is_ascii_hexdigit text.now }
    ensures bound { result ≤ length text.now }
{
    text.iter().take_while(|b| b.is_ascii_hexdigit()).count()
}

fn is_long(suffix: &[u8]) -> bool
    ensures { result ≡ spec.is_long suffix.now }
{
    match suffix {
        [] => true,
        [b] => *b == b'l' || *b == b'L',
        [b, c] => (*b == b'l' || *b == b'L') && *b == *c,
        _ => false,
    }
}

#[tactic(auto, unfolding(crate::specs::Reading::is_suffix))]
fn is_suffix(suffix: &[u8]) -> bool
    ensures { result ≡ spec.is_suffix suffix.now }
{
    match suffix {
        [b'u' | b'U', rest @ ..] => is_long(rest),
        [front @ .., b'u' | b'U'] => is_long(front),
        _ => is_long(suffix),
    }
}

#[tactic(auto, unfolding(crate::specs::Reading::decimal_literal))]
fn decimal_literal(word: &[u8]) -> Option<u64>
    ensures { result ≡ spec.decimal_literal word.now }
{
    let (digits, suffix) = word.split_at(decimal_len(word));
    if is_suffix(suffix) {
        decimal_number(digits)
    } else {
        None
    }
}

/// The value of a literal behind its `0x` or `0X`.
#[tactic(auto, unfolding(crate::specs::Reading::hexadecimal_literal))]
fn hexadecimal_literal(word: &[u8]) -> Option<u64>
    ensures { result ≡ spec.hexadecimal_literal word.now }
{
    let (digits, suffix) = word.split_at(hexadecimal_len(word));
    if is_suffix(suffix) {
        number(16, digits)
    } else {
        None
    }
}

/// The value of the literal that these bytes are, if they are one.
#[tactic(auto, unfolding(crate::specs::Reading::literal))]
pub fn literal(word: &[u8]) -> Option<u64>
    ensures { result ≡ spec.literal word.now }
{
    match word {
        [b'0', b'x' | b'X', rest @ ..] => hexadecimal_literal(rest),
        _ => decimal_literal(word),
    }
}
