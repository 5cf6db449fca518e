//! Runs of sources with each form of statement and each operator.

use crate::trials::source_ends;
use sample_runs::ends::{End, PLAIN};
use sample_runs::texts::CUBE;
use std::test::Fail;

/// The first branch is taken at (0, 1) and (0, 2). Elsewhere s grows by i + j: to 3, 4, 6 and 9.
#[test]
fn statements_of_each_form(rt: HostRuntime) -> Result<(), Fail> {
    let data = b"n = 2\nA = 1 2 3 4 5 6 7 8 9 10 11 12\nB = 1 2 3\n";
    let wanted = End {
        cells: &[&[1, 3, 6, 4, 8, 6, 7, 4, 9, 6, 11, 9], &[9, 14, 9]],
        accesses: 13,
        body_turns: 8,
        ..PLAIN
    };
    assert!(rt; source_ends(rt.alloc(), CUBE.as_bytes(), data, &wanted)?);
    Ok(())
}

const OPERATORS: &[u8] = b"void ops(uint64_t A[13]) {
  uint64_t s = 13;
  A[0] = s + 5;
  A[1] = s - 15;
  A[2] = s * s;
  A[3] = s / 5;
  A[4] = s % 5;
  A[5] = s & 6;
  A[6] = s | 6;
  A[7] = s ^ 6;
  A[8] = s << 2;
  A[9] = s >> 2;
  A[10] = umin(s, 7) + umax(s, 20);
  A[11] = ~s - (uint64_t)(s < 14);
  A[12] -= 1;
}
";

/// What the operators give.
const RESULTS: &[u64] = &[
    18,
    18446744073709551614,
    169,
    2,
    3,
    4,
    15,
    11,
    52,
    3,
    27,
    18446744073709551601,
    18446744073709551615,
];

#[test]
fn operators_are_modulo_2_to_the_64(rt: HostRuntime) -> Result<(), Fail> {
    let data = b"A = 0 0 0 0 0 0 0 0 0 0 0 0 0\n";
    let wanted = End {
        cells: &[RESULTS],
        accesses: 14,
        ..PLAIN
    };
    assert!(rt; source_ends(rt.alloc(), OPERATORS, data, &wanted)?);
    Ok(())
}

/// A cell that an index cell leads to, in two dimensions, is read before the old cell's sum is stored.
const PICK: &[u8] = b"#pragma balance range n 1 9
void pick(int64_t n, const uint64_t P[n], const uint64_t X[2][n], uint64_t Y[n]) {
  for (int64_t i = 0; i < n; i++)
    if (i < 2)
      Y[i] += X[P[i]][P[0]];
}
";

#[test]
fn subscripts_may_be_words(rt: HostRuntime) -> Result<(), Fail> {
    let data = b"n = 3\nP = 1 0 2\nX = 10 20 30 40 50 60\nY = 1 2 3\n";
    let wanted = End {
        cells: &[&[1, 0, 2], &[10, 20, 30, 40, 50, 60], &[51, 22, 3]],
        accesses: 10,
        body_turns: 3,
        ..PLAIN
    };
    assert!(rt; source_ends(rt.alloc(), PICK, data, &wanted)?);
    Ok(())
}
