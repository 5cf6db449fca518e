//! What isn't affine.

use crate::texts::{judged, source_judged};
use c_tree::Refusal;
use sample_texts::texts::joined;
use std::alloc::Global;

/// The extents of an array that aren't all affine.
const EXTENTS: [&str; 16] = [
    "[n * n]",
    "[~n]",
    "[n / 2]",
    "[n % 2]",
    "[n << 1]",
    "[n & 1]",
    "[n | 1]",
    "[(uint64_t)n]",
    "[umin(n, 2)]",
    "[(uint64_t)(n < 2)]",
    "[n][n * n]",
    "[1][n][(n + 1) * (n - n)]",
    "[n[0]]",
    "[1 / 1]",
    "[~0]",
    "[1 << 2]",
];

fn extents_judged(alloc: Global, extents: &str) -> Result<(), Refusal> {
    let text = joined(
        alloc,
        &[
            b"#pragma balance range n 1 9\nvoid f(int64_t n, uint64_t A[n], uint64_t B",
            extents.as_bytes(),
            b") { A[0] = A[0] / 0; }",
        ],
    )?;
    judged(alloc, text.as_slice())
}

#[test]
fn refuses_extents_that_are_not_affine(rt: HostRuntime) {
    let refused = Err(Refusal::NotAffine { item: 0 });
    for extents in EXTENTS {
        assert_eq!(rt; extents_judged(rt.alloc(), extents), refused, "{extents}");
    }
}

/// Bodies with a bound, a side of a condition, a subscript or a cast's operand that isn't affine, or a signed
/// name as data, and the item.
const BODIES: [(&str, u32); 48] = [
    ("for (int64_t i = 0; i < n * m; i++) A[0] = 1; A[1] = 1;", 1),
    ("for (int64_t i = n / 2; i < n; i++) ;", 1),
    ("for (int64_t i = s; i < n; i++) ;", 1),
    ("for (int64_t i = 0; i < A[0]; i++) ;", 1),
    ("for (int64_t i = 0; i < n[0]; i++) ;", 1),
    ("for (int64_t i = 0; i < umin(n, 3); i++) ;", 1),
    ("if (n * m < 3) A[0] = 1;", 1),
    ("if (n < 3 && s < 3) A[0] = 1;", 1),
    ("if (A[0] == 1) A[0] = 1;", 1),
    ("if (n < 3 && ~m < 3) ;", 1),
    ("if ((uint64_t)n < 3) ;", 1),
    ("A[n * m] = 1;", 1),
    ("A[(n + 1) * (m - m)] = 1;", 1),
    ("A[s] = 1;", 1),
    ("A[P[P[0]]] = 1;", 1),
    ("A[P[s]] = 1;", 1),
    ("A[P[n * n]] = 1;", 1),
    ("A[P[0] + 1] = 1;", 1),
    ("A[-P[0]] = 1;", 1),
    ("A[A] = 1;", 1),
    ("A[P] = 1;", 1),
    ("A[0] = A[2 / 2];", 1),
    ("A[0] = A[(uint64_t)n];", 1),
    ("A[0] = B[0][1 << 1];", 1),
    ("A[0] = n;", 1),
    ("A[0] = -n;", 1),
    ("A[0] = s + n;", 1),
    ("A[0] = s << n;", 1),
    ("A[0] = s / m;", 1),
    ("A[0] = umin(n, 1);", 1),
    ("A[0] = (uint64_t)(n < m);", 1),
    ("A[0] = (uint64_t)(n * m);", 1),
    ("A[0] = (uint64_t)~n;", 1),
    ("A[0] = (uint64_t)(n / 2);", 1),
    ("A[0] = (uint64_t)((uint64_t)n + 1);", 1),
    ("A[0] = (uint64_t)((uint64_t)n);", 1),
    ("A[0] = (uint64_t)(s + m);", 1),
    ("A[0] = (uint64_t)(A[0] + m);", 1),
    ("s += (uint64_t)(n << 1);", 1),
    ("for (int64_t i = 0; i < n - 1; i++) A[i * n] = 1;", 2),
    (
        "for (int64_t i = 0; i < n; i++) A[i] = (uint64_t)umin(i, 2);",
        2,
    ),
    ("A[0] = 1; if (n < 3) A[n * n] = 1; A[1] = 1;", 3),
    (
        "for (int64_t i = 0; i < n; i++) { if (i < n) { for (int64_t j = i * n; j < n; j++) ; } A[i] = 1; }",
        3,
    ),
    (
        "for (int64_t i = 0; i < n; i++) A[i] = A[i] + 1; A[0] = (uint64_t)(n - n * m);",
        3,
    ),
    ("if (n < 3) A[0] = 1; else if (n * m < 3) A[1] = 1;", 3),
    ("A[1048577] = 1; s = s / 0; A[n * n] = 1;", 3),
    ("P[0] = 1; A[0][0] = 1; if (s < n) ;", 3),
    ("A[A[0]] = 1; for (int64_t i = 0; i < ~n; i++) ;", 2),
];

#[test]
fn refuses_what_is_not_affine(rt: HostRuntime) {
    for (body, item) in BODIES {
        assert_eq!(rt;
            source_judged(rt.alloc(), body),
            Err(Refusal::NotAffine { item }),
            "{body}"
        );
    }
}
