//! Numbers of subscripts.

use crate::texts::source_judged;
use c_tree::Refusal;

/// Bodies with a cell of another number of subscripts than its array has, an array's name without any, or
/// subscripts of what isn't an array, and the item.
const BODIES: [(&str, u32); 23] = [
    ("A[0][0] = 1; A[1] = 1;", 1),
    ("A = 1;", 1),
    ("A += 1;", 1),
    ("A[0] = A;", 1),
    ("A[0] = P;", 1),
    ("B[0] = 1;", 1),
    ("B[0][0][0] = 1;", 1),
    ("A[0] = B[1];", 1),
    ("s[0] = 1;", 1),
    ("A[0] = s[0];", 1),
    ("n[0] = 1;", 1),
    ("A[0] = n[0];", 1),
    ("A[0] = (uint64_t)A;", 1),
    ("A[0] = umin(s, P);", 1),
    ("A[0] = (uint64_t)(A < 1);", 1),
    ("A[0] = A[P[0][0]];", 1),
    ("A[0] = A[n[0]];", 1),
    ("A[0] = A[s[0]];", 1),
    ("for (int64_t i = 0; i < n; i++) A[i] = i[0];", 2),
    ("A[0] = 1; if (n < 3) B[0] = 1; A[1] = 1;", 3),
    (
        "for (int64_t i = 0; i < n; i++) A[i] = 1; A[0] = s + B[0][0][n];",
        3,
    ),
    ("P[0] = 1; A[A[0]] = s / 0; A[0] = B[0];", 3),
    (
        "A[P[0]] = 1; if (n < 3) ; else for (int64_t i = 0; i < n; i++) A[i] = A[i][i];",
        4,
    ),
];

#[test]
fn refuses_wrong_numbers_of_subscripts(rt: HostRuntime) {
    for (body, item) in BODIES {
        assert_eq!(rt;
            source_judged(rt.alloc(), body),
            Err(Refusal::WrongDimensions { item }),
            "{body}"
        );
    }
}
