//! Right sides of assignments, each with its tree, and texts that are none.

use crate::made::found_in_made_body;
use c_tree::{Expr, Refusal, Stmt, Unit};
use sample_texts::shown::shown_expression;
use sample_texts::texts::{Found, joined, source};
use std::alloc::{AllocError, Global};

/// The body with this right side.
fn assignment(alloc: Global, text: &str) -> Result<Vec<u8>, AllocError> {
    joined(alloc, &[b"x[0] = ", text.as_bytes(), b";"])
}

/// The unit with this right side.
fn unit_of(alloc: Global, text: &str) -> Result<Unit, Refusal> {
    let body = assignment(alloc, text)?;
    source(alloc, body.as_slice())
}

fn is_tree(alloc: Global, e: &Expr, tree: &str) -> bool {
    shown_expression(alloc, e).as_slice() == tree.as_bytes()
}

fn assigns(alloc: Global, body: &[Stmt], tree: &str) -> bool {
    match body {
        [Stmt::Assign { value, .. }] => is_tree(alloc, value, tree),
        _ => false,
    }
}

/// Whether the assignment of this right side is read, and gives the tree.
fn is_right_side(alloc: Global, text: &str, tree: &str) -> bool {
    match unit_of(alloc, text) {
        Ok(unit) => assigns(alloc, unit.body.as_slice(), tree),
        Err(_) => false,
    }
}

const RIGHT_SIDES: [(&str, &str); 19] = [
    ("a - b - c", "(- (- a b) c)"),
    ("1 << 2 + 3", "(<< 1 (+ 2 3))"),
    ("a & b ^ c | d", "(| (^ (& a b) c) d)"),
    (
        "a | b ^ c & d << e - f / g",
        "(| a (^ b (& c (<< d (- e (/ f g))))))",
    ),
    ("a / b * c % d", "(% (* (/ a b) c) d)"),
    ("a << b >> c", "(>> (<< a b) c)"),
    (
        "a ^ b ^ c | d | e & f & g",
        "(| (| (^ (^ a b) c) d) (& (& e f) g))",
    ),
    ("(a + b) * c", "(* (+ a b) c)"),
    ("a - (b - c)", "(- a (- b c))"),
    ("-~a / 0x10u % b >> 3", "(>> (% (/ (- (~ a)) 16) b) 3)"),
    ("a - -b", "(- a (- b))"),
    ("umin(a, umax(b, c))", "(umin a (umax b c))"),
    ("M[a + 1][b][2]", "M[(+ a 1)][b][2]"),
    ("(uint64_t)a + b", "(+ (word a) b)"),
    ("(uint64_t)(a < b)", "(< a b)"),
    ("(uint64_t)((((a))) + 1 < (b))", "(< (+ a 1) b)"),
    ("(uint64_t)(((a)))", "(word a)"),
    ("(uint64_t)-(a | b)", "(word (- (| a b)))"),
    ("(uint64_t)((uint64_t)(a >= b) != c)", "(!= (>= a b) c)"),
];

/// The first right side that doesn't give its tree.
fn first_unlike(alloc: Global, sides: &[(&'static str, &str)]) -> Option<&'static str> {
    for (text, tree) in sides {
        if !is_right_side(alloc, text, tree) {
            return Some(*text);
        }
    }
    None
}

#[test]
fn reads_right_sides(rt: HostRuntime) {
    assert_eq!(rt; first_unlike(rt.alloc(), &RIGHT_SIDES), None);
}

/// A comparison under a cast stands in one pair of parentheses, no rule uses `--`, and a source has
/// none of the forms of printed texts.
const NO_RIGHT_SIDES: [&str; 16] = [
    "(uint64_t)(((a < b)))",
    "(uint64_t)(a < b < c)",
    "(uint64_t)(a & b < c)",
    "a < b",
    "(a < b)",
    "a--b",
    "+a",
    "a+ +1",
    "a b",
    "a[]",
    "()",
    "f(a)",
    "umin(a)",
    "bal_min(a, b)",
    "bal_wide(1, 2)",
    "(unsigned __int128)a",
];

/// The first right side that isn't refused as none.
fn first_taken(alloc: Global, sides: &[&'static str]) -> Option<&'static str> {
    for text in sides {
        if found_in_made_body(alloc, assignment(alloc, text)) != Found::NoUnit {
            return Some(*text);
        }
    }
    None
}

#[test]
fn refuses_right_sides(rt: HostRuntime) {
    assert_eq!(rt; first_taken(rt.alloc(), &NO_RIGHT_SIDES), None);
}
