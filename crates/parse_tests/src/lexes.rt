//! Texts and their tokens.

use c_lexer::{LexFault, Token, TokenKind, Tokens, lex};
use c_tree::preamble;
use std::alloc::{AllocError, Global};

fn tokens_of(alloc: Global, text: &[u8]) -> Result<Tokens, LexFault> {
    if text.len() > 16777216 {
        return Err(LexFault::OutOfMemory);
    }
    lex(alloc, text)
}

/// Whether the text has these tokens, each by its kind, its first place and the place behind it.
fn has_tokens(alloc: Global, text: &[u8], expected: &[(TokenKind, u32, u32)]) -> bool {
    match tokens_of(alloc, text) {
        Ok(tokens) => are_same(tokens.as_slice(), expected),
        Err(_) => false,
    }
}

fn are_same(tokens: &[Token], expected: &[(TokenKind, u32, u32)]) -> bool {
    tokens.len() == expected.len()
        && tokens
            .iter()
            .zip(expected)
            .all(|(t, e)| t.kind == e.0 && t.start == e.1 && t.end == e.2)
}

fn stops_at(alloc: Global, text: &[u8], byte: u32) -> bool {
    match tokens_of(alloc, text) {
        Err(LexFault::Lexical { byte: found }) => found == byte,
        _ => false,
    }
}

/// Texts with a byte that begins no token, and that byte.
const WITHOUT: [(&[u8], u32); 27] = [
    (b"x = 08;", 4),
    (b"a@b", 1),
    (b"/* open", 0),
    (b"0xg", 0),
    (b"5lL", 0),
    (b"5uu", 0),
    (b"5lul", 0),
    (b"5a", 0),
    (b"x 5_", 2),
    (b"0x", 0),
    (b"18446744073709551616", 0),
    (b"0x10000000000000000", 0),
    (b"aa ! b", 3),
    (b"\"s\"", 0),
    (b"a \xff", 2),
    (b"# /* open", 0),
    (b"#include <a> /* open", 13),
    (b"#pragma omp /* open", 12),
    (b"#pragma 5", 0),
    (b"  #pragma (", 2),
    (b"#includes <a>", 0),
    (b"#define A", 0),
    (b"#", 0),
    (b"x # include", 2),
    (b"x /* \n */ # include", 10),
    (b"#pragma balance #", 16),
    (b"#pragma balance begin\n@", 22),
];

/// The first text whose reading doesn't stop there.
fn first_other_stop(alloc: Global) -> Option<usize> {
    for (i, (text, byte)) in WITHOUT.iter().enumerate() {
        if !stops_at(alloc, text, *byte) {
            return Some(i);
        }
    }
    None
}

#[test]
fn texts_without_tokens(rt: HostRuntime) {
    assert_eq!(rt; first_other_stop(rt.alloc()), None);
}

/// Tokens, each by its kind, its first place and the place behind it.
type Places = &'static [(TokenKind, u32, u32)];

/// The first text that has other tokens.
fn first_other(alloc: Global, texts: &[(&[u8], Places)]) -> Option<usize> {
    for (i, (text, expected)) in texts.iter().enumerate() {
        if !has_tokens(alloc, text, expected) {
            return Some(i);
        }
    }
    None
}

const FIVE: TokenKind = TokenKind::Literal(5);

const LARGE: TokenKind = TokenKind::Literal(18446744073709551615);

const WITH: [(&[u8], Places); 7] = [
    (b"", &[]),
    (
        b"5ULL 5llu 0XfF",
        &[
            (FIVE, 0, 4),
            (FIVE, 5, 9),
            (TokenKind::Literal(255), 10, 14),
        ],
    ),
    (b"18446744073709551615", &[(LARGE, 0, 20)]),
    (
        b"0\r\n\t\x0c_a1",
        &[(TokenKind::Literal(0), 0, 1), (TokenKind::Word, 5, 8)],
    ),
    (b"+++=", &[(TokenKind::Mark, 0, 2), (TokenKind::Mark, 2, 4)]),
    (
        b"<<= --%",
        &[
            (TokenKind::Mark, 0, 2),
            (TokenKind::Mark, 2, 3),
            (TokenKind::Mark, 4, 6),
            (TokenKind::Mark, 6, 7),
        ],
    ),
    (
        b"a/**/b//c\n/",
        &[
            (TokenKind::Word, 0, 1),
            (TokenKind::Word, 5, 6),
            (TokenKind::Mark, 10, 11),
        ],
    ),
];

#[test]
fn texts_with_tokens(rt: HostRuntime) {
    assert_eq!(rt; first_other(rt.alloc(), &WITH), None);
}

const LINES: [(&[u8], Places); 6] = [
    (
        b"#pragma balance range n 1",
        &[
            (TokenKind::Directive, 0, 15),
            (TokenKind::Word, 16, 21),
            (TokenKind::Word, 22, 23),
            (TokenKind::Literal(1), 24, 25),
            (TokenKind::EndLine, 25, 25),
        ],
    ),
    (
        b" #\tpragma\x0cbalance\r\nx",
        &[
            (TokenKind::Directive, 1, 17),
            (TokenKind::EndLine, 18, 19),
            (TokenKind::Word, 19, 20),
        ],
    ),
    (
        b"#/* \n */pragma balance /*\n*/ begin // x\ny",
        &[
            (TokenKind::Directive, 0, 22),
            (TokenKind::Word, 29, 34),
            (TokenKind::EndLine, 39, 40),
            (TokenKind::Word, 40, 41),
        ],
    ),
    (
        b"/* \n */ # pragma balance\n",
        &[(TokenKind::Directive, 8, 24), (TokenKind::EndLine, 24, 25)],
    ),
    (b"#include \"@\" // /*\ny", &[(TokenKind::Word, 19, 20)]),
    (
        b"#pragma\n#pragma omp 08 /* @\n */ @\n# include\n\tx",
        &[(TokenKind::Word, 45, 46)],
    ),
];

#[test]
fn directives_and_skipped_lines(rt: HostRuntime) {
    assert_eq!(rt; first_other(rt.alloc(), &LINES), None);
}

/// A word of so many bytes, behind these.
fn word_behind(alloc: Global, front: &[u8], bytes: usize) -> Result<Vec<u8>, AllocError> {
    let mut text = Vec::from_slice(alloc, front)?;
    for _ in 0..bytes {
        text.push(b'w')?;
    }
    Ok(text)
}

fn word_has(alloc: Global, word: (&[u8], usize), expected: &[(TokenKind, u32, u32)]) -> bool {
    match word_behind(alloc, word.0, word.1) {
        Ok(text) => has_tokens(alloc, text.as_slice(), expected),
        Err(_) => false,
    }
}

fn word_stops_at(alloc: Global, front: &[u8], bytes: usize, byte: u32) -> bool {
    match word_behind(alloc, front, bytes) {
        Ok(text) => stops_at(alloc, text.as_slice(), byte),
        Err(_) => false,
    }
}

#[test]
fn long_words(rt: HostRuntime) {
    let alloc = rt.alloc();
    let printed = preamble();
    let start = printed.len() as u32;
    assert!(rt; word_has(alloc, (b"", 255), &[(TokenKind::Word, 0, 255)]));
    assert!(rt; word_stops_at(alloc, b"a ", 256, 2));
    assert!(rt;
        word_has(
            alloc,
            (printed, 262),
            &[
                (TokenKind::Preamble, 0, start),
                (TokenKind::Word, start, start + 262)
            ]
        )
    );
    assert!(rt; word_stops_at(alloc, printed, 263, start));
    assert!(rt; word_has(alloc, (b"#include ", 300), &[]));
}
