//! Constants and coefficients of affine expressions.

use crate::texts::{judged, source_judged};
use c_tree::Refusal;
use sample_texts::texts::joined;
use std::alloc::Global;

fn extent_judged(alloc: Global, extent: &str) -> Result<(), Refusal> {
    let text = joined(
        alloc,
        &[
            b"#pragma balance range n 1 9\nvoid f(int64_t n, uint64_t A[n], uint64_t B[n][",
            extent.as_bytes(),
            b"]) {}",
        ],
    )?;
    judged(alloc, text.as_slice())
}

/// Extents with a subexpression whose constant or coefficient is beyond 2^20.
const LARGE_EXTENTS: [&str; 7] = [
    "1048577",
    "1048577 * n",
    "1048576 * n + n",
    "1048576 + n + 1",
    "2 * 1048576",
    "1048577 - 1",
    "1 + 0 * 1048577",
];

#[test]
fn refuses_large_terms_in_extents(rt: HostRuntime) {
    let refused = Err(Refusal::CoefficientTooLarge { item: 0 });
    for extent in LARGE_EXTENTS {
        assert_eq!(rt; extent_judged(rt.alloc(), extent), refused, "{extent}");
    }
}

const SMALL_EXTENTS: [&str; 4] = [
    "1048576",
    "1048576 * n",
    "1048576 * n + 1048576",
    "1048575 * n + n",
];

#[test]
fn takes_terms_of_extents_up_to_their_limit(rt: HostRuntime) {
    for extent in SMALL_EXTENTS {
        assert_eq!(rt; extent_judged(rt.alloc(), extent), Ok(()), "{extent}");
    }
}

/// Bodies with an affine expression in which a constant or a coefficient is beyond 2^20, and the item.
const LARGE: [(&str, u32); 24] = [
    (
        "for (int64_t i = 0; i < 1048577 * n; i++) A[i + 1] = A[i] + 1;",
        1,
    ),
    ("for (int64_t i = 1048577; i < n; i++) ;", 1),
    (
        "for (int64_t i = 0; i < n; i++) A[i] = 1048577 + A[1048577 * i];",
        2,
    ),
    ("if (n < 1048577) A[0] = 1;", 1),
    ("if (n < 3 && 1048576 * n + n < 0) ;", 1),
    ("A[1048577] = 1;", 1),
    ("A[0] = A[-1048577];", 1),
    ("A[0] = A[- -1048577];", 1),
    ("A[0] = A[0 - 1048576 - 1];", 1),
    ("A[0] = A[1048576 + 1];", 1),
    ("A[0] = A[1024 * 1025 * n];", 1),
    ("A[0] = A[-1048576 * n - n];", 1),
    ("A[0] = P[Q[1048577]];", 1),
    ("A[0] = A[18446744073709551615];", 1),
    ("A[0] = A[0 * 1048577];", 1),
    ("A[0] = A[1048577 * n - 1048577 * n];", 1),
    ("A[0] = A[(n + 1) * 1048576 + 1];", 1),
    ("A[0] = (uint64_t)(1048577 * n);", 1),
    ("A[0] = (uint64_t)(n + 1048576 + 1);", 1),
    ("A[0] = 1; if (n < 3) A[2097152] = 1; A[1] = 1;", 3),
    (
        "for (int64_t i = 0; i < n; i++) A[i] = 1; if (n < m && m < 1048577) ;",
        3,
    ),
    ("A[0] = 1; A[0] = B[0][1048577];", 2),
    ("A[0] = s / 0; P[0] = 1; A[0][0] = 1; A[1048577] = 1;", 4),
    (
        "A[P[0]] = 1; for (int64_t i = -1048577; i < 0; i++) A[A[0]] = 1;",
        2,
    ),
];

#[test]
fn refuses_large_terms(rt: HostRuntime) {
    for (body, item) in LARGE {
        assert_eq!(rt;
            source_judged(rt.alloc(), body),
            Err(Refusal::CoefficientTooLarge { item }),
            "{body}"
        );
    }
}

/// Bodies whose terms are within 2^20, and literals of data beyond it.
const SMALL: [&str; 10] = [
    "A[1048576] = 1048577;",
    "A[-1048576] = 1;",
    "A[1048576 * n - 1048576 * m + 1048576] = 1;",
    "A[1024 * 1024 * n] = 1;",
    "A[1048575 + 1] = 1;",
    "A[0] = (uint64_t)(1048576 * n - 1048576);",
    "A[0] = (uint64_t)1048577;",
    "A[0] = (uint64_t)(s + 1048577);",
    "for (int64_t i = -1048576; i <= 1048576; i++) A[1048576 * i] = 1;",
    "if (1048576 * n <= -1048576) ;",
];

#[test]
fn takes_terms_up_to_their_limit(rt: HostRuntime) {
    for body in SMALL {
        assert_eq!(rt; source_judged(rt.alloc(), body), Ok(()), "{body}");
    }
}
