//! Words.

ghost use Rattle.std.specs.Prelude.{◌≡◌, ◌≤◌, length};
ghost use Rattle.c_tree.specs.Reserved as names;
ghost use Rattle.text_pieces.specs.Fronts.{run};
ghost use Rattle.c_lexer.specs.Reading as spec;

use c_tree::is_word_byte;

pub fn is_digit(b: u8) -> bool
    ensures { result ≡ names.is_digit b }
{
    b.is_ascii_digit()
}

/// How many letters, digits and `_` stand at the front.
pub fn word_len(text: &[u8]) -> usize
    ensures value { result ≡ spec.word_len text.now }
    ensures bound { result ≤ length text.now }
{
    text.iter().take_while(|b| is_word_byte(**b)).count()
}

/// The longest front of letters, digits and `_`.
pub fn word_run(text: &[u8]) -> &[u8]
    ensures value { result.now ≡ run names.is_word_byte text.now }
    ensures bound { length result.now ≤ length text.now }
{
    &text[..word_len(text)]
}

fn begins_with_digit(text: &[u8]) -> bool
    ensures { result ≡ spec.begins_with_digit text.now }
{
    match text {
        [b, ..] => is_digit(*b),
        [] => false,
    }
}

/// The word at the front, which is empty where none begins there.
pub fn first_word(text: &[u8]) -> &[u8]
    ensures value { result.now ≡ spec.first_word text.now }
    ensures bound { length result.now ≤ length text.now }
{
    if begins_with_digit(text) {
        &[]
    } else {
        word_run(text)
    }
}
