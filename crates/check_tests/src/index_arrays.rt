//! Index arrays.

use crate::texts::{judged, source_judged};
use c_tree::Refusal;

/// Bodies with an index array that isn't `const`, or that is the array that it subscripts, and the item.
const BODIES: [(&str, u32); 15] = [
    ("s = P[A[0]]; s = 1;", 1),
    ("s = A[A[0]];", 1),
    ("s = P[P[0]];", 1),
    ("s = B[0][A[n]];", 1),
    ("s = B[P[0]][A[n]];", 1),
    ("s = A[B[0][0]];", 1),
    ("A[A[0]] = 1;", 1),
    ("A[B[n][n]] += 1;", 1),
    ("s = 1 + umin(P[0], ~(uint64_t)(1 < P[A[n]]));", 1),
    ("for (int64_t i = 0; i < n; i++) A[i] = Q[Q[i]];", 2),
    ("A[0] = 1; if (n < 3) A[0] = P[A[0]]; A[1] = 1;", 3),
    ("for (int64_t i = 0; i < n; i++) A[i] = 1; s += A[A[0]];", 3),
    ("if (n < 3) s = A[P[0]]; else s = P[P[0]];", 3),
    ("A[P[0]] = 1; s = s / 0; s = P[P[0]];", 3),
    (
        "A[0] = A[0] << 64; A[Q[0]] = 1; for (int64_t i = 0; i < n; i++) B[i][A[i]] = 1;",
        4,
    ),
];

#[test]
fn refuses_bad_index_arrays(rt: HostRuntime) {
    for (body, item) in BODIES {
        assert_eq!(rt;
            source_judged(rt.alloc(), body),
            Err(Refusal::BadIndexArray { item }),
            "{body}"
        );
    }
}

#[test]
fn refuses_an_index_array_of_the_shift(rt: HostRuntime) {
    let text = b"#include <stdint.h>
#pragma balance range n 1 1000
void shift(int64_t n, uint64_t A[n], uint64_t P[n]) {
  for (int64_t i = 0; i < n - 1; i++)
    A[i + 1] = A[P[i]];
}
";
    assert_eq!(rt;
        judged(rt.alloc(), text),
        Err(Refusal::BadIndexArray { item: 2 })
    );
}
