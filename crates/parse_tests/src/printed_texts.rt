//! Printed texts: the forms that sources don't have.

use crate::made::{found_in_made, is_made_unit};
use c_tree::preamble;
use sample_texts::shown::shown;
use sample_texts::texts::{Found, GUARDED, VERDICT, found_in, joined, kind_of, printed};
use std::alloc::Global;

const GUARDED_UNIT: &[u8] = b"bal_fn_shift (version 1) (range n 1 1000) (int n) (array A[n]) \
(word bal_r0 0) (word bal_w 0) (wide bal_k) (wide bal_def0) (wide bal_use0) \
(for bal_i0 0 < n (= bal_r0 A[bal_i0]) (= bal_k (bal_wide 0 0)) \
(if (<= bal_i0 0) (<= 2 n) then (+= bal_k (bal_wide 0 1)) else) \
(+= bal_def0 (* (wide bal_r0) bal_k))) \
begin \
(for i 0 < (- n 1) (= bal_r0 A[i]) (+= bal_use0 (wide bal_r0)) (= bal_w (+ bal_r0 1)) \
(= A[(+ i 1)] bal_w) (= bal_k (bal_wide 0 0)) \
(if (<= i (- n 3)) then (+= bal_k (bal_wide 0 1)) else) \
(+= bal_def0 (* (wide bal_w) bal_k))) \
verdict";

/// Whether the parts, one behind another, have this unit.
fn have_unit(alloc: Global, parts: &[&[u8]], shown: &[u8]) -> bool {
    is_made_unit(alloc, joined(alloc, parts), shown)
}

/// What is found in the parts, one behind another.
fn found_in_parts(alloc: Global, parts: &[&[u8]]) -> Found {
    found_in_made(alloc, joined(alloc, parts))
}

#[test]
fn reads_a_guarded_shift(rt: HostRuntime) {
    assert!(rt; have_unit(rt.alloc(), &[preamble(), GUARDED], GUARDED_UNIT));
}

/// Without its preamble, with the preamble's last line feed left out, or with it further on, a text is
/// no printed one.
#[test]
fn wants_the_preamble_first(rt: HostRuntime) {
    let alloc = rt.alloc();
    assert_eq!(rt; found_in(alloc, GUARDED), Found::NoUnit);
    let later = found_in_parts(alloc, &[b"\n", preamble(), GUARDED]);
    assert_eq!(rt; later, Found::NoTokens);
    if let [short @ .., _feed] = preamble() {
        let without = found_in_parts(alloc, &[short, b" ", GUARDED]);
        assert_eq!(rt; without, Found::NoTokens);
    }
    let twice = found_in_parts(alloc, &[preamble(), preamble(), GUARDED]);
    assert_eq!(rt; twice, Found::NoTokens);
}

/// What stands before `begin`, what behind it, and the trees.
const FORMS: [(&str, &str, &str); 6] = [
    ("", "", " begin verdict"),
    (
        "uint64_t *t = calloc(n + 1, sizeof(uint64_t)); if (t == 0) { return 1099511627776ull; }",
        "if (x >= (uint64_t)(n)) { return 131072ull; }",
        " (table t (+ n 1)) begin (check x n 1) verdict",
    ),
    (
        "uint64_t * t = calloc((1), sizeof(uint64_t)); if (t == 0u) { return 0x10000000000; } t[0] = 1;",
        "if (x >= (uint64_t)((n))) { return 0x10000; }",
        " (table t 1) (= t[0] 1) begin (check x n 0) verdict",
    ),
    (
        "x = 1; {}",
        "for (int64_t i = bal_max(0, n); i <= bal_min(n, 9); i++) if (x >= (uint64_t)(n)) x = 1;",
        " (= x 1) begin (for i (bal_max 0 n) <= (bal_min n 9) (if (>= x (word n)) then (= x 1) else)) verdict",
    ),
    (
        "{ if (x >= (uint64_t)(n)) { return 65536ull; } }",
        "if (x < y) { if (x >= (uint64_t)(n)) { return 65536ull; } } else { x = 1; }",
        " (check x n 0) begin (if (< x y) then (check x n 0) else (= x 1)) verdict",
    ),
    (
        "k = (unsigned __int128)a * (unsigned __int128)(b + c) + bal_wide(0x1, 2ull) / 2ull;",
        "u += (unsigned __int128)(uint64_t)(a < b);",
        " (= k (+ (* (wide a) (wide (+ b c))) (/ (bal_wide 1 2) 2))) begin (+= u (wide (< a b))) verdict",
    ),
];

/// Whether the printed text is read, and gives the trees.
fn is_form(alloc: Global, before: &str, behind: &str, trees: &str) -> bool {
    match printed(alloc, before.as_bytes(), behind.as_bytes(), VERDICT) {
        Ok(unit) => shown(alloc, unit.body.as_slice()).as_slice() == trees.as_bytes(),
        Err(_) => false,
    }
}

/// The first of the forms that doesn't give its trees.
fn first_unlike(alloc: Global) -> Option<usize> {
    for (i, (before, behind, trees)) in FORMS.iter().enumerate() {
        if !is_form(alloc, before, behind, trees) {
            return Some(i);
        }
    }
    None
}

#[test]
fn reads_printed_forms(rt: HostRuntime) {
    assert_eq!(rt; first_unlike(rt.alloc()), None);
}

/// A check of a third array, one of another form, tables with two names, of another element, with
/// another answer and in a block, and `begin` in a block and twice.
const NO_FORMS: [&str; 10] = [
    "if (x >= (uint64_t)(n)) { return 262144ull; }",
    "if (x >= (uint64_t)(n)) { return 65537ull; }",
    "if (x >= (uint64_t)(n) && x >= (uint64_t)(n)) { return 65536ull; }",
    "if (x >= (uint64_t)(n)) return 65536ull;",
    "uint64_t *t = calloc(1, sizeof(uint64_t)); if (s == 0) { return 1099511627776ull; }",
    "uint64_t *t = calloc(1, sizeof(int64_t)); if (t == 0) { return 1099511627776ull; }",
    "uint64_t *t = calloc(1, sizeof(uint64_t)); if (t == 0) { return 1099511627775ull; }",
    "{ uint64_t *t = calloc(1, sizeof(uint64_t)); if (t == 0) { return 1099511627776ull; } }",
    "{\n#pragma balance begin\n}",
    "\n#pragma balance begin\n",
];

/// Verdicts with pairs left out, exchanged, added and numbered otherwise.
const NO_VERDICTS: [&str; 7] = [
    "",
    "return 0;",
    "return (uint64_t)(bal_def0 != bal_use0) << 0;",
    "return (uint64_t)(bal_def1 != bal_use1) << 1 | (uint64_t)(bal_def0 != bal_use0) << 0;",
    "return (uint64_t)(bal_def0 != bal_use0) << 0 | (uint64_t)(bal_def1 != bal_use1) << 1 | (uint64_t)(bal_def2 != bal_use2) << 2;",
    "return (uint64_t)(bal_def0 != bal_use0) << 0 | (uint64_t)(bal_def01 != bal_use01) << 1;",
    "return (uint64_t)(bal_def0 != bal_use0) << 0 | (uint64_t)(bal_def1 != bal_use1) << 0;",
];

/// What is found in a printed text with these statements before `begin`, and this last one.
fn printed_found(alloc: Global, before: &[u8], last: &[u8]) -> Found {
    kind_of(&printed(alloc, before, b"", last))
}

/// The first of the statements that aren't refused.
fn first_form(alloc: Global) -> Option<&'static str> {
    for text in &NO_FORMS {
        if printed_found(alloc, text.as_bytes(), VERDICT) != Found::NoUnit {
            return Some(*text);
        }
    }
    None
}

/// The first of the verdicts that isn't refused.
fn first_verdict(alloc: Global) -> Option<&'static str> {
    for text in &NO_VERDICTS {
        if printed_found(alloc, b"", text.as_bytes()) != Found::NoUnit {
            return Some(*text);
        }
    }
    None
}

#[test]
fn refuses_printed_forms(rt: HostRuntime) {
    assert_eq!(rt; first_form(rt.alloc()), None);
    assert_eq!(rt; first_verdict(rt.alloc()), None);
}

/// Without arrays a printed text returns 0, and has no other verdict.
#[test]
fn returns_nothing_without_arrays(rt: HostRuntime) {
    let head =
        b"#pragma balance version 1\nuint64_t f(int64_t n) {\n#pragma balance begin\nreturn ";
    assert!(rt;
        have_unit(
            rt.alloc(),
            &[preamble(), head, b"0x0;}"],
            b"f (version 1) (int n) begin verdict"
        )
    );
    assert_eq!(rt;
        found_in_parts(
            rt.alloc(),
            &[preamble(), head, b"(uint64_t)(bal_def0 != bal_use0) << 0;}"]
        ),
        Found::NoUnit
    );
}
