//! What is written.

use crate::texts::{judged, source_judged};
use c_tree::Refusal;

/// Bodies that write a `const` array, a parameter or a loop's variable, and the item.
const NOT_WRITTEN: [(&str, u32); 13] = [
    ("P[0] = 1; A[1] = 1;", 1),
    ("P[0] += 1;", 1),
    ("P[Q[0]] = 1;", 1),
    ("n = 1;", 1),
    ("m *= 2;", 1),
    ("for (int64_t i = 0; i < n; i++) i = 1;", 2),
    (
        "for (int64_t i = 0; i < n; i++) for (int64_t j = 0; j < n; j++) { A[i] = 1; i += 1; }",
        4,
    ),
    ("A[0] = 1; if (n < 3) P[0] = 1; A[1] = 1;", 3),
    ("for (int64_t i = 0; i < n; i++) A[i] = 1; n = 1;", 3),
    ("if (n < 3) A[0] = 1; else Q[n] = 1;", 3),
    ("A[0] = A[A[0]]; s = s / 0; A[P[0]] = 1; P[0] = 1;", 4),
    ("A[A[0]] = 1; P[0] = P[0] << 64; P[1] = 1;", 2),
    (
        "A[Q[0]] = 1; for (int64_t i = 0; i < n; i++) { i = s / 0; n = s; }",
        3,
    ),
];

#[test]
fn refuses_targets_that_are_not_written(rt: HostRuntime) {
    for (body, item) in NOT_WRITTEN {
        assert_eq!(rt;
            source_judged(rt.alloc(), body),
            Err(Refusal::WriteToConst { item }),
            "{body}"
        );
    }
}

/// Bodies with a written cell that has a cell as a subscript, and the item.
const IRREGULAR: [(&str, u32); 8] = [
    ("A[P[0]] = 1; A[1] = 1;", 1),
    ("A[P[0]] += 1;", 1),
    ("B[0][P[n]] = 1;", 1),
    ("B[Q[0]][n] = 1;", 1),
    ("for (int64_t i = 0; i < n - 1; i++) A[P[i]] = 1;", 2),
    ("A[0] = 1; if (n < 3) A[Q[n]] = 1; A[1] = 1;", 3),
    (
        "for (int64_t i = 0; i < n; i++) A[i] = 1; B[P[0]][Q[0]] = A[P[0]];",
        3,
    ),
    ("if (n < 3) A[0] = 1; else A[P[0]] = 1;", 3),
];

#[test]
fn refuses_irregular_writes(rt: HostRuntime) {
    for (body, item) in IRREGULAR {
        assert_eq!(rt;
            source_judged(rt.alloc(), body),
            Err(Refusal::IrregularWrite { item }),
            "{body}"
        );
    }
}

#[test]
fn refuses_an_irregular_write_of_the_shift(rt: HostRuntime) {
    let text = b"#include <stdint.h>
#pragma balance range n 1 1000
void shift(int64_t n, uint64_t A[n], const uint64_t P[n]) {
  for (int64_t i = 0; i < n - 1; i++)
    A[P[i]] = 1;
}
";
    assert_eq!(rt;
        judged(rt.alloc(), text),
        Err(Refusal::IrregularWrite { item: 2 })
    );
}
