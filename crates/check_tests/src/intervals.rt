//! Intervals of affine expressions at their limit, and one beyond. They go by the structure of the
//! expression: `p - p` has an interval of width.

use crate::texts::judged;
use c_tree::Refusal;
use sample_texts::texts::joined;
use std::alloc::Global;

// `1048576 * (p - p + p - p)` lies in -2^62 to 2^62, and `1048576 * (q + r + t + u)` is 2^62.
const HEAD: &[u8] = b"#pragma balance range p -1099511627776 1099511627776
#pragma balance range q 1099511627776 1099511627776
#pragma balance range r 1099511627776 1099511627776
#pragma balance range t 1099511627776 1099511627776
#pragma balance range u 1099511627776 1099511627776
void f(int64_t p, int64_t q, int64_t r, int64_t t, int64_t u, uint64_t A[1], uint64_t B[1][1], const uint64_t P[";

fn wide_judged(alloc: Global, extent: &str, body: &str) -> Result<(), Refusal> {
    let text = joined(
        alloc,
        &[
            HEAD,
            extent.as_bytes(),
            b"]) { uint64_t s = 0; ",
            body.as_bytes(),
            b" }",
        ],
    )?;
    judged(alloc, text.as_slice())
}

/// Bodies with an interval that goes to its limit.
const NARROW: [&str; 13] = [
    "A[1048576 * (p - p + p - p)] = 1;",
    "A[1048576 * (q + r + t + u)] = 1;",
    "A[-1048576 * (q + r + t + u)] = 1;",
    "if (1048576 * (p - p + p - p) < 1048576 * (p - p + p - p)) ;",
    "A[0] = (uint64_t)(1048576 * (p - p + p - p));",
    "for (int64_t i = 1048576 * (p - p + p - p); i < 1048576 * (p - p + p - p); i++) ;",
    "for (int64_t i = 0; i < 1048576 * (p - p + p - p); i++) A[i + 1] = 1;",
    "for (int64_t i = 0; i <= 1048576 * (p - p + p - p); i++) A[i] = 1;",
    "for (int64_t i = 0; i <= 1048576 * (p - p + p - p); i++) A[i - i] = 1;",
    "for (int64_t i = 1048576 * (p - p + p - p); i < 0; i++) A[i] = 1;",
    "for (int64_t i = 1048576 * (q + r + t + u); i < 0; i++) A[i - 1] = 1;",
    "for (int64_t i = 0; i <= 1048576 * (q + r + t + u); i++) for (int64_t j = 0; j <= i; j++) A[j] = 1;",
    "A[0] = 18446744073709551615 * s;",
];

#[test]
fn takes_intervals_up_to_their_limit(rt: HostRuntime) {
    for body in NARROW {
        assert_eq!(rt; wide_judged(rt.alloc(), "1", body), Ok(()), "{body}");
    }
}

/// Bodies with an interval that goes beyond it, and the item.
const WIDE: [(&str, u32); 21] = [
    ("A[1048576 * (p - p + p - p) + 1] = 1; A[0] = 1;", 1),
    ("A[1048576 * (p - p + p - p) - 1] = 1;", 1),
    ("A[1048576 * (q + r + t + u) + 1] = 1;", 1),
    ("A[1048576 * (p - p + p - p) + 1 - 1] = 1;", 1),
    ("A[-1048576 * (p - p + p - p) + 1] = 1;", 1),
    ("A[0] = A[1048576 * (p - p + p - p) + 1];", 1),
    ("A[0] = B[0][P[1048576 * (p - p + p - p) + 1]];", 1),
    ("A[0] = (uint64_t)(1048576 * (p - p + p - p) + 1);", 1),
    (
        "for (int64_t i = 1048576 * (p - p + p - p) - 1; i < 0; i++) ;",
        1,
    ),
    (
        "for (int64_t i = 0; i < 1048576 * (p - p + p - p) + 1; i++) ;",
        1,
    ),
    ("if (0 < 1 && 0 < 1048576 * (p - p + p - p) - 1) ;", 1),
    (
        "for (int64_t i = 0; i < 1048576 * (p - p + p - p); i++) A[i + 2] = 1;",
        2,
    ),
    (
        "for (int64_t i = 0; i <= 1048576 * (p - p + p - p); i++) A[i + 1] = 1;",
        2,
    ),
    (
        "for (int64_t i = 0; i <= 1048576 * (p - p + p - p); i++) A[i - i + 1] = 1;",
        2,
    ),
    (
        "for (int64_t i = 1048576 * (p - p + p - p); i < 0; i++) A[i - 1] = 1;",
        2,
    ),
    (
        "for (int64_t i = 1048576 * (q + r + t + u); i < 0; i++) A[i + 1] = 1;",
        2,
    ),
    (
        "for (int64_t i = 0; i <= 1048576 * (q + r + t + u); i++) for (int64_t j = 0; j <= i; j++) A[i + j] = 1;",
        3,
    ),
    (
        "A[0] = 1; if (q < 3) A[1048576 * (p - p + p - p) + 1] = 1; A[1] = 1;",
        3,
    ),
    (
        "for (int64_t i = 0; i < 3; i++) A[i] = 1; if (1048576 * (p - p + p - p) + 1 < 0) ;",
        3,
    ),
    (
        "A[0] = s / 0; P[0] = 1; A[1048576 * (p - p + p - p) + 1] = 1;",
        3,
    ),
    (
        "A[A[0]] = 1; A[0][0] = 1; for (int64_t i = 0; i < 1048576 * (p - p + p - p) + 1; i++) ;",
        3,
    ),
];

#[test]
fn refuses_wide_intervals(rt: HostRuntime) {
    for (body, item) in WIDE {
        assert_eq!(rt;
            wide_judged(rt.alloc(), "1", body),
            Err(Refusal::IntervalTooWide { item }),
            "{body}"
        );
    }
}

#[test]
fn extents_have_intervals_too(rt: HostRuntime) {
    let alloc = rt.alloc();
    let wide = Err(Refusal::IntervalTooWide { item: 0 });
    assert_eq!(rt; wide_judged(alloc, "1048576 * (q + r + t + u)", ""), Ok(()));
    assert_eq!(rt;
        wide_judged(alloc, "1048576 * (q + r + t + u) + 1", ""),
        wide
    );
    assert_eq!(rt;
        wide_judged(alloc, "1048576 * (p - p + p - p) + 1", "A[0] = s / 0;"),
        wide
    );
    assert_eq!(rt;
        wide_judged(alloc, "1048576 * (p - p + p - p)", ""),
        Err(Refusal::ExtentNotPositive { item: 0 })
    );
}

#[test]
fn large_terms_come_before_wide_intervals(rt: HostRuntime) {
    let body = "A[1048576 * (p - p + p - p) + 1] = 1; A[1048577] = 1;";
    assert_eq!(rt;
        wide_judged(rt.alloc(), "1048576 * (q + r + t + u) + 1", body),
        Err(Refusal::CoefficientTooLarge { item: 2 })
    );
}
