//! Names that are declared twice, and names that aren't in scope.

use crate::texts::{judged, source_judged};
use c_tree::Refusal;

/// Sources whose head declares a name twice: two parameters, a parameter and an array, two arrays, an array
/// and a scalar, a parameter and a scalar, two scalars, and the function's name of each kind.
const HEADS_TWICE: [&str; 9] = [
    "#pragma balance range n 1 1000
void shift(int64_t n, int64_t n, uint64_t A[n]) {
  for (int64_t i = 0; i < n - 1; i++)
    A[i + 1] = A[i] + 1;
}
",
    "#pragma balance range n 1 9\nvoid f(int64_t n, uint64_t n[1]) {}",
    "void f(uint64_t A[1], uint64_t B[1], const uint64_t A[2]) {}",
    "void f(uint64_t A[1]) { uint64_t s = 0; uint64_t A = 1; }",
    "#pragma balance range n 1 9\nvoid f(int64_t n) { uint64_t n = 0; }",
    "void f(uint64_t A[1]) { uint64_t s = 0; uint64_t r = 0; uint64_t s = 1; }",
    "#pragma balance range f 1 9\nvoid f(int64_t f) {}",
    "void f(uint64_t A[1], uint64_t f[1]) {}",
    "void f(uint64_t A[1]) { uint64_t f = 0; }",
];

#[test]
fn refuses_names_twice_in_the_head(rt: HostRuntime) {
    let refused = Err(Refusal::NameTwice { item: 0 });
    for text in HEADS_TWICE {
        assert_eq!(rt; judged(rt.alloc(), text.as_bytes()), refused, "{text}");
    }
}

/// Bodies with a loop's variable that has the name of something else, and the loop: the first item, one in
/// between and the last, and each with a higher fault before it.
const LOOPS_TWICE: [(&str, u32); 13] = [
    ("for (int64_t n = 0; n < 3; n++) A[0] = 1; A[1] = 1;", 1),
    ("for (int64_t f = 0; f < 3; f++) A[0] = 1;", 1),
    ("for (int64_t A = 0; A < 3; A++) ;", 1),
    ("for (int64_t s = 0; s < 3; s++) ;", 1),
    (
        "A[0] = 1; for (int64_t i = 0; i < n; i++) { for (int64_t i = 0; i < n; i++) A[i] = 1; A[i] = 2; } A[1] = 1;",
        3,
    ),
    (
        "for (int64_t i = 0; i < n; i++) for (int64_t j = 0; j < n; j++) if (i < j) for (int64_t i = 0; i < n; i++) ;",
        4,
    ),
    (
        "A[0] = 1; if (n < 3) A[1] = 1; for (int64_t P = 0; P < n; P++) ;",
        4,
    ),
    (
        "if (n < 3) A[0] = 1; else for (int64_t m = 0; m < n; m++) ; A[0] = 1;",
        3,
    ),
    ("A[0] = q; for (int64_t n = 0; n < 3; n++) A[0] = 1;", 2),
    (
        "for (int64_t _i = 0; _i < 3; _i++) for (int64_t s = 0; s < 3; s++) ; A[0] = 1;",
        2,
    ),
    (
        "A[n * m] = 1; s = s / 0; P[0] = 1; for (int64_t n = 0; n < 3; n++) ;",
        4,
    ),
    (
        "for (int64_t n = 0; n < 3; n++) ; for (int64_t m = 0; m < 3; m++) ;",
        1,
    ),
    (
        "for (int64_t i = 0; i < q; i++) for (int64_t i = 0; i < q; i++) ;",
        2,
    ),
];

#[test]
fn refuses_loops_with_names_of_others(rt: HostRuntime) {
    for (body, item) in LOOPS_TWICE {
        assert_eq!(rt;
            source_judged(rt.alloc(), body),
            Err(Refusal::NameTwice { item }),
            "{body}"
        );
    }
}

/// Sources with an extent that names no `int64_t` parameter before it: an earlier array, the array itself,
/// a later parameter, a scalar, a name that there isn't.
const EXTENTS_UNKNOWN: [&str; 7] = [
    "#pragma balance range n 1 9\nvoid f(int64_t n, uint64_t A[n], uint64_t B[A]) {}",
    "#pragma balance range n 1 9\nvoid f(int64_t n, uint64_t A[n], uint64_t B[A[0]]) {}",
    "void f(uint64_t A[A]) {}",
    "#pragma balance range n 1 9\nvoid f(uint64_t A[n], int64_t n) {}",
    "void f(uint64_t A[s]) { uint64_t s = 1; }",
    "#pragma balance range n 1 9\nvoid f(int64_t n, uint64_t A[n][2][n + q]) {}",
    "#pragma balance range n 9 1\nvoid _f(int64_t n, uint64_t A[n * q]) { A[0] = q; }",
];

#[test]
fn refuses_extents_with_unknown_names(rt: HostRuntime) {
    let refused = Err(Refusal::NameUnknown { item: 0 });
    for text in EXTENTS_UNKNOWN {
        assert_eq!(rt; judged(rt.alloc(), text.as_bytes()), refused, "{text}");
    }
}

/// Bodies that use a name that isn't in scope there, and the item.
const UNKNOWN: [(&str, u32); 24] = [
    ("A[0] = q; A[1] = 1;", 1),
    ("q = 1;", 1),
    ("Z[0] = 1;", 1),
    ("A[q] = 1;", 1),
    ("A[0] = A[P[q]];", 1),
    ("A[0] = (uint64_t)(1 < umin(1, ~q));", 1),
    ("A[0] = (uint64_t)-q << 1;", 1),
    ("for (int64_t i = q; i < n; i++) ;", 1),
    ("for (int64_t i = 0; i < q; i++) ;", 1),
    ("for (int64_t i = i; i < n; i++) ;", 1),
    ("for (int64_t i = 0; i < i + 1; i++) ;", 1),
    ("if (q < n) A[0] = 1;", 1),
    ("if (n < 3 && n < q) A[0] = 1;", 1),
    ("for (int64_t i = 0; i < n - 1; i++) A[i] = q;", 2),
    ("A[0] = 1; if (n < q) A[1] = 1; A[2] = 1;", 2),
    (
        "for (int64_t i = 0; i < n; i++) for (int64_t j = i; j < q; j++) A[i] = 1;",
        2,
    ),
    ("for (int64_t i = 0; i < n; i++) A[i] = 1; A[i] = 2;", 3),
    ("if (n < 3) A[0] = 1; else A[0] = q;", 3),
    ("if (n < 3) ; else if (n < 5) { A[0] = 1; } A[0] = q;", 4),
    ("for (int64_t _i = 0; _i < n; _i++) A[_i] = q;", 2),
    ("A[0] = s / 0; P[0] = 1; A[P[0]] = 1; A[0] = q;", 4),
    ("A[n * m] = 1; A[0] = q; A[1] = q;", 2),
    ("A[0][0] = 1; if (q < n) ;", 2),
    (
        "A[0] = 1 << 64; for (int64_t i = 0; i < q; i++) A[0] = 1;",
        2,
    ),
];

#[test]
fn refuses_unknown_names(rt: HostRuntime) {
    for (body, item) in UNKNOWN {
        assert_eq!(rt;
            source_judged(rt.alloc(), body),
            Err(Refusal::NameUnknown { item }),
            "{body}"
        );
    }
}

/// A reserved scalar in the head, and an unknown name behind it.
#[test]
fn unknown_names_come_before_reserved_ones(rt: HostRuntime) {
    let text = b"void f(uint64_t A[1]) { uint64_t bal_x = 0; A[0] = 1; A[0] = q; }";
    assert_eq!(rt;
        judged(rt.alloc(), text),
        Err(Refusal::NameUnknown { item: 2 })
    );
}
