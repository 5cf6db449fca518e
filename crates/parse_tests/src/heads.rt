//! What stands before a function's statements: ranges, parameters, declarations.

use sample_texts::texts::{Found, found_in, is_unit};
use std::alloc::Global;

const HEADS: [(&str, &str); 5] = [
    (
        "#pragma balance range n -9223372036854775808 9223372036854775807\nvoid f(int64_t n) {}",
        "f (range n -9223372036854775808 9223372036854775807) (int n)",
    ),
    (
        "#pragma balance range range - 0x10 -0\nvoid f(int64_t range) {}",
        "f (range range -16 0) (int range)",
    ),
    (
        "void f(const uint64_t A[1][n + 1][2 * n]) { uint64_t s = 18446744073709551615; uint64_t t = 0; }",
        "f (const A[1][(+ n 1)][(* 2 n)]) (word s 18446744073709551615) (word t 0)",
    ),
    (
        "void version(int64_t pragma, uint64_t balance[pragma][begin]) { uint64_t sizeof = 0x1FuLL; }",
        "version (int pragma) (array balance[pragma][begin]) (word sizeof 31)",
    ),
    (
        "#pragma balance range a 2 1\n#pragma balance range a 0 0\nvoid f(uint64_t a[0]) { ; a = 1; }",
        "f (range a 2 1) (range a 0 0) (array a[0]) (= a 1)",
    ),
];

/// The first text that doesn't have its unit.
fn first_unlike(alloc: Global, heads: &[(&'static str, &str)]) -> Option<&'static str> {
    for (text, shown) in heads {
        if !is_unit(alloc, text.as_bytes(), shown.as_bytes()) {
            return Some(*text);
        }
    }
    None
}

#[test]
fn reads_heads(rt: HostRuntime) {
    assert_eq!(rt; first_unlike(rt.alloc(), &HEADS), None);
}

const NO_HEADS: [&str; 21] = [
    "#pragma balance range n 0 9223372036854775808\nvoid f(int64_t n) {}",
    "#pragma balance range n -9223372036854775809 0\nvoid f(int64_t n) {}",
    "#pragma balance range n 1\nvoid f(int64_t n) {}",
    "#pragma balance range n 1 2 3\nvoid f(int64_t n) {}",
    "#pragma balance range n 1 +2\nvoid f(int64_t n) {}",
    "#pragma balance range n 1\n2\nvoid f(int64_t n) {}",
    "#pragma balance range void 1 2\nvoid f(int64_t n) {}",
    "#pragma balance version 1\nvoid f(int64_t n) {}",
    "void f(int64_t n) {\n#pragma balance begin\n}",
    "void f(uint64_t A[1][2][3][4]) {}",
    "void f(uint64_t A) {}",
    "void f() {}",
    "void f(int64_t n,) {}",
    "void f(int64_t n m) {}",
    "void f(const int64_t n) {}",
    "void f(int64_t n) { uint64_t s; }",
    "void f(int64_t n) { uint64_t s = -1; }",
    "void f(int64_t n) { unsigned __int128 s = 0; }",
    "uint64_t f(int64_t n) {}",
    "void f(int64_t n) {} ;",
    "void for(int64_t n) {}",
];

/// The first text that isn't refused as no unit.
fn first_taken(alloc: Global, heads: &[&'static str]) -> Option<&'static str> {
    for text in heads {
        if found_in(alloc, text.as_bytes()) != Found::NoUnit {
            return Some(*text);
        }
    }
    None
}

#[test]
fn refuses_heads(rt: HostRuntime) {
    assert_eq!(rt; first_taken(rt.alloc(), &NO_HEADS), None);
}
