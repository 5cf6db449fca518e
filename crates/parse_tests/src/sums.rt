//! Loops over one array with other bounds, subscripts and values, and long sums.

use c_parser::parse;
use c_tree::{Refusal, Unit};
use sample_texts::shown::shown;
use sample_texts::texts::{joined, nested};
use std::alloc::{AllocError, Global};

/// A body, and its tree.
const LOOPS: [(&str, &str); 7] = [
    (
        "for (int64_t i = 0; i <= n - 2; i++) A[i + 1] = A[i] + 1;",
        " (for i 0 <= (- n 2) (= A[(+ i 1)] (+ A[i] 1)))",
    ),
    (
        "for (int64_t i = 3; i < n; ++i) { A[i - 2] = A[i] + A[i + 1] + 7; }",
        " (for i 3 < n (= A[(- i 2)] (+ (+ A[i] A[(+ i 1)]) 7)))",
    ),
    (
        "for (int64_t i = 0x10; i < n + 1048576; i += 1) A[i] = 0;",
        " (for i 16 < (+ n 1048576) (= A[i] 0))",
    ),
    (
        "for (int64_t i = 0; i < n - 1; i++) A[i + 1] -= 1;",
        " (for i 0 < (- n 1) (-= A[(+ i 1)] 1))",
    ),
    (
        "for (int64_t i = 0; i < n; i++) bal_x[i] = bal_x[i];",
        " (for i 0 < n (= bal_x[i] bal_x[i]))",
    ),
    (
        "for (int64_t i = 0; i < n; i++) A[i] = 1 + (A[i] + 1);",
        " (for i 0 < n (= A[i] (+ 1 (+ A[i] 1))))",
    ),
    (
        "for (int64_t i = 0; i < n; i++) A[i] = 18446744073709551615;",
        " (for i 0 < n (= A[i] 18446744073709551615))",
    ),
];

/// The unit of a source with this body.
fn unit_of(alloc: Global, body: &[u8]) -> Result<Unit, Refusal> {
    let head = b"#pragma balance range n 0 1000\nvoid f(int64_t n, uint64_t A[n]) {\n";
    let text = joined(alloc, &[head, body, b"\n}\n"])?;
    parse(alloc, text.as_slice())
}

/// Whether a source with this body has the tree.
fn has_tree(alloc: Global, body: &[u8], tree: &[u8]) -> bool {
    match unit_of(alloc, body) {
        Ok(unit) => shown(alloc, unit.body.as_slice()).as_slice() == tree,
        Err(_) => false,
    }
}

/// The first body that doesn't have its tree.
fn first_unlike(alloc: Global, loops: &[(&'static str, &str)]) -> Option<&'static str> {
    for (body, tree) in loops {
        if !has_tree(alloc, body.as_bytes(), tree.as_bytes()) {
            return Some(*body);
        }
    }
    None
}

#[test]
fn reads_loops_over_one_array(rt: HostRuntime) {
    assert_eq!(rt; first_unlike(rt.alloc(), &LOOPS), None);
}

/// A body with a value of one item and so many more behind it, and its tree, where the sum is to the left.
const SUMS: [([&str; 5], [&str; 5], usize); 3] = [
    (
        [
            "for (int64_t i = 0; i < n; i++) A[i] = 1",
            " + 1",
            "",
            "",
            ";",
        ],
        [" (for i 0 < n (= A[i] ", "(+ ", "1", " 1)", "))"],
        31,
    ),
    (
        [
            "for (int64_t i = 0; i < n; i++) A[i] = A[i]",
            " + A[i]",
            "",
            "",
            ";",
        ],
        [" (for i 0 < n (= A[i] ", "(+ ", "A[i]", " A[i])", "))"],
        16,
    ),
    (
        ["A[0] = 2", " * 3", "", "", ";"],
        [" (= A[0] ", "(* ", "2", " 3)", ")"],
        62,
    ),
];

fn has_made_tree(alloc: Global, body: &[u8], made: Result<Vec<u8>, AllocError>) -> bool {
    match made {
        Ok(tree) => has_tree(alloc, body, tree.as_slice()),
        Err(_) => false,
    }
}

/// Whether the text has the tree, with so many more items.
fn is_sum(alloc: Global, text: &[&str; 5], tree: &[&str; 5], more: usize) -> bool {
    match nested(alloc, text, more) {
        Ok(body) => has_made_tree(alloc, body.as_slice(), nested(alloc, tree, more)),
        Err(_) => false,
    }
}

/// How many more items the first sum has that isn't read so.
fn first_other(alloc: Global) -> Option<usize> {
    for (text, tree, more) in &SUMS {
        if !is_sum(alloc, text, tree, *more) {
            return Some(*more);
        }
    }
    None
}

#[test]
fn reads_long_sums(rt: HostRuntime) {
    assert_eq!(rt; first_other(rt.alloc()), None);
}
