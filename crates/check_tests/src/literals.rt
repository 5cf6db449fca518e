//! Divisors and amounts of shifts.

use crate::texts::source_judged;
use c_tree::Refusal;

/// Bodies with a divisor that isn't a literal or is 0, or an amount that isn't a literal up to 63.
const BAD: [(&str, u32); 25] = [
    ("s = s / 0; A[0] = 1;", 1),
    ("s = s % 0;", 1),
    ("s = s / 0x0;", 1),
    ("s = s / s;", 1),
    ("s = s % A[0];", 1),
    ("s = s / (1 + 1);", 1),
    ("s = s % (uint64_t)2;", 1),
    ("s = s / -1;", 1),
    ("s = s << 64;", 1),
    ("s = s >> 64;", 1),
    ("s = s << 18446744073709551615;", 1),
    ("s = s << s;", 1),
    ("s = 1 >> A[0];", 1),
    ("s = s << (1 + 1);", 1),
    ("s = 1 << 60 + 3;", 1),
    ("s = s << (uint64_t)n;", 1),
    ("A[0] = umin(s, 1 << ~(s / 0));", 1),
    ("A[0] = (uint64_t)(s / 0 < 1);", 1),
    ("A[0] = (uint64_t)(s / 0);", 1),
    ("for (int64_t i = 0; i < n - 1; i++) A[i] = A[i] / 0;", 2),
    ("A[0] = 1; if (n < 3) A[0] = 1 << 64; A[1] = 1;", 3),
    ("for (int64_t i = 0; i < n; i++) A[i] = 1; s += s % 0;", 3),
    ("if (n < 3) s = s / 3; else s = s >> 64;", 3),
    ("A[P[0]] = 1; s = s / 0;", 2),
    (
        "B[0][Q[0]] = 1; if (n < 3) A[Q[0]] = 2; else { A[0] = 1; A[0] = s << s; }",
        5,
    ),
];

#[test]
fn refuses_bad_literals(rt: HostRuntime) {
    for (body, item) in BAD {
        assert_eq!(rt;
            source_judged(rt.alloc(), body),
            Err(Refusal::BadLiteral { item }),
            "{body}"
        );
    }
}

const RIGHT: [&str; 8] = [
    "s = s / 1;",
    "s = 0 % 1;",
    "s = s / 18446744073709551615;",
    "s = s << 0;",
    "s = s << 63;",
    "s = s >> 63;",
    "s = s << 0x3f >> (63);",
    "s = s / 3 % 4 << 1 >> 63;",
];

#[test]
fn takes_literals_up_to_their_limits(rt: HostRuntime) {
    for body in RIGHT {
        assert_eq!(rt; source_judged(rt.alloc(), body), Ok(()), "{body}");
    }
}
