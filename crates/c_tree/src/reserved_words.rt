//! Words: which are words at all, and which a source may not declare.

ghost use Rattle.std.specs.Prelude.{◌≡◌};
ghost use Rattle.std.specs.Str.{bytes_eq};
ghost use Rattle.std.specs.List.{list_all, list_any};
ghost use Rattle.c_tree.specs.Reserved as names;

fn is_letter(b: u8) -> bool
    ensures { result ≡ names.is_letter b }
{
    matches!(b, b'A'..=b'Z' | b'a'..=b'z' | b'_')
}

fn is_digit(b: u8) -> bool
    ensures { result ≡ names.is_digit b }
{
    b.is_ascii_digit()
}

/// Whether the byte stands in words and literals: a letter, a digit or `_`.
pub fn is_word_byte(b: u8) -> bool
    ensures { result ≡ names.is_word_byte b }
{
    is_letter(b) || is_digit(b)
}

fn are_word_bytes(bytes: &[u8]) -> bool
    ensures { result ≡ list_all names.is_word_byte bytes.now }
{
    bytes.iter().all(|b| is_word_byte(*b))
}

/// Whether the bytes are a word: a letter or `_`, and then letters, digits and `_`.
pub fn is_word(bytes: &[u8]) -> bool
    ensures { result ≡ names.is_word bytes.now }
{
    match bytes {
        [first, rest @ ..] => is_letter(*first) && are_word_bytes(rest),
        [] => false,
    }
}

/// The words of the grammar.
const GRAMMAR_WORDS: [&[u8]; 16] = [
    b"void",
    b"int64_t",
    b"uint64_t",
    b"const",
    b"for",
    b"if",
    b"else",
    b"unsigned",
    b"__int128",
    b"return",
    b"umin",
    b"umax",
    b"calloc",
    b"bal_min",
    b"bal_max",
    b"bal_wide",
];

/// Words that C or its headers take.
const C_WORDS: [&[u8]; 29] = [
    b"auto",
    b"break",
    b"case",
    b"char",
    b"continue",
    b"default",
    b"do",
    b"double",
    b"enum",
    b"extern",
    b"float",
    b"goto",
    b"inline",
    b"int",
    b"long",
    b"register",
    b"restrict",
    b"short",
    b"signed",
    b"sizeof",
    b"static",
    b"struct",
    b"switch",
    b"typedef",
    b"union",
    b"volatile",
    b"while",
    b"main",
    b"size_t",
];

fn is_among(word: &[u8], words: &[&[u8]]) -> bool
    ensures { result ≡ list_any (λ w. bytes_eq word.now w.now) words.entry.now }
{
    words.iter().any(|w| word == *w)
}

fn is_grammar_word(word: &[u8]) -> bool
    ensures { result ≡ list_any (bytes_eq word.now) names.grammar_words }
{
    is_among(word, &GRAMMAR_WORDS)
}

fn is_c_word(word: &[u8]) -> bool
    ensures { result ≡ list_any (bytes_eq word.now) names.c_words }
{
    is_among(word, &C_WORDS)
}

/// Whether a source may not declare the word: it begins with `bal_` or `_`, is one of the grammar's
/// words, or is taken by C or its headers.
pub fn is_reserved(word: &[u8]) -> bool
    ensures { result ≡ names.is_reserved word.now }
{
    word.starts_with(b"bal_") || word.starts_with(b"_") || is_grammar_word(word) || is_c_word(word)
}
