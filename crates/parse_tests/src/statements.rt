//! Bodies of sources, each with its trees, and texts that are none.

use crate::made::found_in_body;
use sample_texts::shown::shown;
use sample_texts::texts::{Found, source};
use std::alloc::Global;

/// Whether the body is read, and gives the trees.
fn is_body(alloc: Global, text: &str, trees: &str) -> bool {
    match source(alloc, text.as_bytes()) {
        Ok(unit) => shown(alloc, unit.body.as_slice()).as_slice() == trees.as_bytes(),
        Err(_) => false,
    }
}

const BODIES: [(&str, &str); 16] = [
    (
        "if (a < b) if (c < d) x = 1; else x = 2;",
        " (if (< a b) then (if (< c d) then (= x 1) else (= x 2)) else)",
    ),
    (
        "if (a < b) { if (c < d) x = 1; } else x = 2;",
        " (if (< a b) then (if (< c d) then (= x 1) else) else (= x 2))",
    ),
    (
        "if (a < b) x = 1; else if (c < d) x = 2; else x = 3;",
        " (if (< a b) then (= x 1) else (if (< c d) then (= x 2) else (= x 3)))",
    ),
    (
        "for (int64_t i = 0; i <= n; i += 1) x = 1;",
        " (for i 0 <= n (= x 1))",
    ),
    (
        "for (int64_t i = 0; i <= n; i += 0x1u) x = 1;",
        " (for i 0 <= n (= x 1))",
    ),
    (
        "for (int64_t i = 0; i <= n; ++i) x = 1;",
        " (for i 0 <= n (= x 1))",
    ),
    (
        "for (int64_t i = 0; i <= n; i++) x = 1;",
        " (for i 0 <= n (= x 1))",
    ),
    (
        "for (int64_t i = 0; i <= n; i++) { x = 1; }",
        " (for i 0 <= n (= x 1))",
    ),
    (
        "for (int64_t i = 0; i <= n; i++) {; { x = 1; } }",
        " (for i 0 <= n (= x 1))",
    ),
    (
        "if (a < b && c == d) x = 1;",
        " (if (< a b) (== c d) then (= x 1) else)",
    ),
    (
        "if (((a < b)) && ((c) == d)) x = 1; else {}",
        " (if (< a b) (== c d) then (= x 1) else)",
    ),
    (
        "if ((a < b && (c == d))) x = 1; else ;",
        " (if (< a b) (== c d) then (= x 1) else)",
    ),
    (
        "a = 1; b += 1; c -= 1; d *= 1; e &= 1; f |= 1; g ^= 1;",
        " (= a 1) (+= b 1) (-= c 1) (*= d 1) (&= e 1) (|= f 1) (^= g 1)",
    ),
    (
        "x[0] ^= a; {{ y = b; }; z[1][2][3] = c; }",
        " (^= x[0] a) (= y b) (= z[1][2][3] c)",
    ),
    ("range = begin + sizeof;", " (= range (+ begin sizeof))"),
    ("", ""),
];

/// The first body that doesn't give its trees.
fn first_unlike(alloc: Global, bodies: &[(&'static str, &str)]) -> Option<&'static str> {
    for (text, trees) in bodies {
        if !is_body(alloc, text, trees) {
            return Some(*text);
        }
    }
    None
}

#[test]
fn reads_statements(rt: HostRuntime) {
    assert_eq!(rt; first_unlike(rt.alloc(), &BODIES), None);
}

/// Steps, bounds and conditions of other forms, `else` alone, operators that no rule has, a declaration
/// behind a statement, a check and a table in a source, and text behind the brace.
const NO_BODIES: [&str; 19] = [
    "for (int64_t i = 0; i > n; i++) ;",
    "for (int64_t i = 0; i != n; i++) ;",
    "for (int64_t i = 0; i < n; i += 2) ;",
    "for (int64_t i = 0; i < n; i--) ;",
    "for (int64_t i = 0; i < n; j++) ;",
    "for (int64_t i = 0; j < n; i++) ;",
    "for (i = 0; i < n; i++) ;",
    "if (a) x = 1;",
    "if (a & b < c) x = 1;",
    "if (a < b) x = 1; else x = 2; else x = 3;",
    "else x = 1;",
    "x /= 1;",
    "x[0] + = 1;",
    "x = 1",
    "x = 1; uint64_t y = 1;",
    "if (x >= (uint64_t)(n)) { return 65536; }",
    "uint64_t *t = calloc(1, sizeof(uint64_t)); if (t == 0) { return 1099511627776; }",
    "x + 1 = 2;",
    "} {",
];

/// The first body that isn't refused as none.
fn first_taken(alloc: Global, bodies: &[&'static str]) -> Option<&'static str> {
    for text in bodies {
        if found_in_body(alloc, text.as_bytes()) != Found::NoUnit {
            return Some(*text);
        }
    }
    None
}

#[test]
fn refuses_statements(rt: HostRuntime) {
    assert_eq!(rt; first_taken(rt.alloc(), &NO_BODIES), None);
}
