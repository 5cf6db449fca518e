//! Texts at the limits of heights, words, literals and lengths, and one beyond.

use crate::made::{
    found_in_body, found_in_made, found_in_made_body, is_made_unit, refusal_of_made,
};
use c_tree::{Refusal, preamble};
use sample_texts::texts::{
    Found, SHIFT, SHIFT_UNIT, VERDICT, joined, kind_of, nested, printed, repeated,
};
use std::alloc::{AllocError, Global};

/// Bodies of sources: what stands in front, a piece that makes the tree higher, the core, the end of each
/// piece, what stands behind, and how often the piece may stand there.
const HEIGHTS: [([&str; 5], u8); 26] = [
    (["x[0] = ", "~", "1", "", ";"], 63),
    (["x[0] = ", "- ", "1", "", ";"], 63),
    (["x[0] = ", "(uint64_t)", "1", "", ";"], 63),
    (["x[0] = ", "(~(", "1", "))", ";"], 63),
    (["x[0] = ", "x[", "1", "]", ";"], 63),
    (["x[0] = ", "x[1][", "1", "][1]", ";"], 63),
    (["x[0] = ", "umin(1, ", "1", ")", ";"], 63),
    (["x[0] = ", "umax(", "1", ", 1)", ";"], 63),
    (["x[0] = ", "1 + ", "1", "", ";"], 63),
    (["x[0] = ", "1 << (", "1", ")", ";"], 63),
    (["x[0] = ", "(uint64_t)(1 < ", "1", ")", ";"], 63),
    (["x[0] += ", "~", "1", "", ";"], 63),
    (["x[", "~", "1", "", "] = 1;"], 62),
    (["x[1][", "~", "1", "", "] = 1;"], 62),
    (["if (", "~", "1", "", " < 1) ;"], 63),
    (["if (1 < 1 && 1 < ", "~", "1", "", ") ;"], 63),
    (["for (int64_t i = ", "~", "1", "", "; i < 1; i++) ;"], 63),
    (["for (int64_t i = 1; i < ", "~", "1", "", "; i++) ;"], 63),
    (["", "if (0 <= 0) ", "A[0] = 1;", "", ""], 63),
    (["", "if (0 <= 0) {", "A[0] = 1;", "}", ""], 63),
    (["", "if (0 <= 0) ; else ", "A[0] = 1;", "", ""], 63),
    (
        ["", "for (int64_t i = 0; i < 1; i++) ", "A[0] = 1;", "", ""],
        63,
    ),
    (
        [
            "",
            "if (0 <= 0) for (int64_t i = 0; i < 1; i++) ",
            "",
            "",
            "A[0] = 1;",
        ],
        31,
    ),
    (["", "if (0 <= 0) ", ";", "", ""], 64),
    (["", "if (0 <= 0) ", "{}", " else {}", ""], 64),
    (["", "for (int64_t i = 0; i < 1; i++) ", ";", "", ""], 64),
];

fn source_found(alloc: Global, parts: &[&str; 5], count: usize) -> Found {
    found_in_made_body(alloc, nested(alloc, parts, count))
}

/// Whether the body is read with so many pieces, and refused with one more.
fn is_highest(alloc: Global, parts: &[&str; 5], most: u8) -> bool {
    let most = usize::from(most);
    source_found(alloc, parts, most) == Found::Unit
        && source_found(alloc, parts, most + 1) == Found::NoUnit
}

/// The first body that has another height.
fn first_other_body(alloc: Global) -> Option<usize> {
    for (i, (parts, most)) in HEIGHTS.iter().enumerate() {
        if !is_highest(alloc, parts, *most) {
            return Some(i);
        }
    }
    None
}

#[test]
fn sources_are_64_high(rt: HostRuntime) {
    assert_eq!(rt; first_other_body(rt.alloc()), None);
}

const EXTENT: [&str; 5] = ["void f(uint64_t x[1][", "~", "1", "", "]) {}"];

fn extent_found(alloc: Global, count: usize) -> Found {
    found_in_made(alloc, nested(alloc, &EXTENT, count))
}

#[test]
fn extents_are_64_high(rt: HostRuntime) {
    assert_eq!(rt; extent_found(rt.alloc(), 63), Found::Unit);
    assert_eq!(rt; extent_found(rt.alloc(), 64), Found::NoUnit);
}

/// The same of printed texts, before `begin`.
const PRINTED_HEIGHTS: [([&str; 5], u8); 15] = [
    (["x = ", "~", "1", "", ";"], 255),
    (["x = ", "(unsigned __int128)", "1", "", ";"], 255),
    (["x = ", "1 + ", "1", "", ";"], 255),
    (["x = ", "bal_min(1, ", "1", ")", ";"], 255),
    (["x = ", "(uint64_t)(1 < ", "1", ")", ";"], 255),
    (["x = ", "~", "bal_wide(1, 1)", "", ";"], 255),
    (["x[", "~", "1", "", "] = 1;"], 254),
    (["if (", "~", "1", "", " >= (uint64_t)(1)) ;"], 255),
    (
        [
            "if (x >= (uint64_t)(",
            "~",
            "n",
            "",
            ")) { return 65536ull; }",
        ],
        255,
    ),
    (["if (x >= (uint64_t)(", "~", "n", "", ")) {}"], 254),
    (
        [
            "uint64_t *t = calloc(",
            "~",
            "n",
            "",
            ", sizeof(uint64_t)); if (t == 0) { return 1099511627776ull; }",
        ],
        255,
    ),
    (["", "if (0 <= 0) ", "x = 1;", "", ""], 159),
    (
        [
            "",
            "if (0 <= 0) {",
            "if (x >= (uint64_t)(n)) { return 65536ull; }",
            "}",
            "",
        ],
        159,
    ),
    (["", "if (x >= (uint64_t)(n)) ", ";", "", ""], 160),
    (["", "for (int64_t i = 0; i < 1; i++) ", ";", "", ""], 160),
];

fn found_before(alloc: Global, before: &[u8]) -> Found {
    kind_of(&printed(alloc, before, b"", VERDICT))
}

fn printed_found(alloc: Global, parts: &[&str; 5], count: usize) -> Found {
    match nested(alloc, parts, count) {
        Ok(before) => found_before(alloc, before.as_slice()),
        Err(_) => Found::Nothing,
    }
}

/// Whether the statement is read with so many pieces, and refused with one more.
fn is_highest_printed(alloc: Global, parts: &[&str; 5], most: u8) -> bool {
    let most = usize::from(most);
    printed_found(alloc, parts, most) == Found::Unit
        && printed_found(alloc, parts, most + 1) == Found::NoUnit
}

/// The first statement that has another height.
fn first_other_statement(alloc: Global) -> Option<usize> {
    for (i, (parts, most)) in PRINTED_HEIGHTS.iter().enumerate() {
        if !is_highest_printed(alloc, parts, *most) {
            return Some(i);
        }
    }
    None
}

#[test]
fn printed_texts_are_256_and_160_high(rt: HostRuntime) {
    assert_eq!(rt; first_other_statement(rt.alloc()), None);
}

/// A shift with so many parentheses round the value, or braces round the assignment.
const DEEP_SHIFTS: [[&str; 5]; 2] = [
    [
        "#pragma balance range n 1 1000\nvoid shift(int64_t n, uint64_t A[n]) { for (int64_t i = 0; i < n - 1; i++) A[i + 1] = ",
        "(",
        "A[i] + 1",
        ")",
        "; }",
    ],
    [
        "#pragma balance range n 1 1000\nvoid shift(int64_t n, uint64_t A[n]) { for (int64_t i = 0; i < n - 1; i++) ",
        "{",
        "A[i + 1] = A[i] + 1;",
        "}",
        "}",
    ],
];

fn is_deep_shift(alloc: Global, parts: &[&str; 5]) -> bool {
    is_made_unit(alloc, nested(alloc, parts, 100_000), SHIFT_UNIT)
}

#[test]
fn parentheses_and_braces_make_nothing_higher(rt: HostRuntime) {
    let [parentheses, braces] = &DEEP_SHIFTS;
    assert!(rt; is_deep_shift(rt.alloc(), parentheses));
    assert!(rt; is_deep_shift(rt.alloc(), braces));
}

/// A source whose function has a name of so many letters.
fn named(alloc: Global, letters: usize) -> Result<Vec<u8>, AllocError> {
    let name = repeated(alloc, b"f", letters)?;
    joined(alloc, &[b"void ", name.as_slice(), b"(int64_t n) {}"])
}

#[test]
fn words_have_255_bytes(rt: HostRuntime) {
    let alloc = rt.alloc();
    assert_eq!(rt; found_in_made(alloc, named(alloc, 255)), Found::Unit);
    let refusal = Refusal::Lexical { byte: 5 };
    assert_eq!(rt; refusal_of_made(alloc, named(alloc, 256)), Some(refusal));
}

/// A printed text whose function has a name of so many letters.
fn printed_named(alloc: Global, letters: usize) -> Result<Vec<u8>, AllocError> {
    let name = repeated(alloc, b"f", letters)?;
    let behind = b"(int64_t n) {\n#pragma balance begin\nreturn 0; }";
    joined(
        alloc,
        &[
            preamble(),
            b"#pragma balance version 1\nuint64_t ",
            name.as_slice(),
            behind,
        ],
    )
}

#[test]
fn words_of_printed_texts_have_262_bytes(rt: HostRuntime) {
    let alloc = rt.alloc();
    assert_eq!(rt;
        found_in_made(alloc, printed_named(alloc, 262)),
        Found::Unit
    );
    assert_eq!(rt;
        found_in_made(alloc, printed_named(alloc, 263)),
        Found::NoTokens
    );
}

const LITERALS: [(&str, Found); 8] = [
    ("x = 18446744073709551615;", Found::Unit),
    ("x = 18446744073709551616;", Found::NoTokens),
    ("x = 0xffffffffffffffffULL;", Found::Unit),
    ("x = 0x10000000000000000;", Found::NoTokens),
    ("x = 0x0000000000000000000001;", Found::Unit),
    ("x = 99999999999999999999999999;", Found::NoTokens),
    ("x[18446744073709551615] = 1;", Found::Unit),
    ("if (18446744073709551616 < 1) ;", Found::NoTokens),
];

/// The first body in which something else is found.
fn first_other_literal(alloc: Global) -> Option<&'static str> {
    for (text, expected) in &LITERALS {
        if found_in_body(alloc, text.as_bytes()) != *expected {
            return Some(*text);
        }
    }
    None
}

#[test]
fn literals_are_below_2_to_the_64(rt: HostRuntime) {
    assert_eq!(rt; first_other_literal(rt.alloc()), None);
}

/// So many assignments, and a right side of so many cells, are read, whatever is asked of them later.
#[test]
fn numbers_of_statements_have_no_limit(rt: HostRuntime) {
    let statements = ["", "A[0] = 1;", "", "", ""];
    let cells = ["A[0] = A[0]", " + A[0]", "", "", ";"];
    assert_eq!(rt; source_found(rt.alloc(), &statements, 257), Found::Unit);
    assert_eq!(rt; source_found(rt.alloc(), &cells, 16), Found::Unit);
}

/// The shift behind a long comment.
fn commented(alloc: Global) -> Result<Vec<u8>, AllocError> {
    let comment = nested(alloc, &["/*", "-", "", "", "*/"], 261_985)?;
    joined(alloc, &[comment.as_slice(), SHIFT])
}

fn length_of_made(made: Result<Vec<u8>, AllocError>) -> Option<usize> {
    match made {
        Ok(text) => Some(text.len()),
        Err(_) => None,
    }
}

/// A shift with a comment that makes its text 262,144 bytes long.
#[test]
fn comments_may_be_long(rt: HostRuntime) {
    let alloc = rt.alloc();
    assert_eq!(rt; length_of_made(commented(alloc)), Some(262_144));
    assert!(rt; is_made_unit(alloc, commented(alloc), SHIFT_UNIT));
}

/// 2^24 marks that begin no token, and these behind them.
fn marks(alloc: Global, behind: &[u8]) -> Result<Vec<u8>, AllocError> {
    let piece = repeated(alloc, b"@", 4096)?;
    let most = repeated(alloc, piece.as_slice(), 4096)?;
    joined(alloc, &[most.as_slice(), behind])
}

/// A text of 2^24 bytes is read, and one more is too many.
#[test]
fn texts_have_16777216_bytes(rt: HostRuntime) {
    let alloc = rt.alloc();
    let refusal = Refusal::Lexical { byte: 0 };
    assert_eq!(rt; refusal_of_made(alloc, marks(alloc, b"")), Some(refusal));
    let refusal = Refusal::TextTooLong { length: 16_777_217 };
    assert_eq!(rt; refusal_of_made(alloc, marks(alloc, b"@")), Some(refusal));
}
