//! Sources that nothing refuses.

use crate::texts::{judged, source_judged};

/// A shift, two copies of a cell, a product of matrices, a triangular loop, two loops in turns, a counted
/// array, and an irregular read.
const KERNELS: [&str; 7] = [
    "#include <stdint.h>
#pragma balance range n 1 1000
void shift(int64_t n, uint64_t A[n]) {
  for (int64_t i = 0; i < n - 1; i++)
    A[i + 1] = A[i] + 1;
}
",
    "void twice(const uint64_t A[1], uint64_t B[2]) { for (int64_t i = 0; i < 2; i++) B[i] = A[0]; }",
    "#include <stdint.h>
/* C = C + A * B */
#pragma scop
#pragma balance range n 1 500
void mm(int64_t n, const uint64_t A[n][n], const uint64_t B[n][n], uint64_t C[n][n]) {
  for (int64_t i = 0; i < n; i++)
    for (int64_t j = 0; j < n; j++)
      for (int64_t k = 0; k < n; k++)
        C[i][j] += A[i][k] * B[k][j];
}
",
    "#pragma balance range n 1 500
void tri(int64_t n, uint64_t A[n][n]) {
  for (int64_t k = 0; k < n - 1; k++)
    for (int64_t i = k + 1; i < n; i++)
      for (int64_t j = k + 1; j < n; j++)
        A[i][j] = A[i][j] - A[i][k] * A[k][j];
}
",
    "#pragma balance range t 0 1000
#pragma balance range n 2 1000
void jac(int64_t t, int64_t n, uint64_t A[n], uint64_t B[n]) {
  for (int64_t s = 0; s < t; s++) {
    for (int64_t i = 1; i < n - 1; i++)
      B[i] = A[i - 1] + A[i + 1];
    for (int64_t i = 1; i < n - 1; i++)
      A[i] = B[i];
  }
}
",
    "#pragma balance range n 1 500
void mix(int64_t n, uint64_t A[2 * n], const uint64_t B[2 * n], uint64_t C[n]) {
  for (int64_t i = 0; i < n; i++)
    for (int64_t j = 0; j < n; j++) {
      A[2 * i] = B[i + j];
      C[i] = C[i] + 1;
    }
}
",
    "#pragma balance range n 1 1000
#pragma balance range m 1 1000
void gather(int64_t n, int64_t m, const uint64_t P[n], const uint64_t X[m], uint64_t Y[n]) {
  for (int64_t i = 0; i < n; i++)
    Y[i] = X[P[i]];
}
",
];

#[test]
fn accepts_the_kernels(rt: HostRuntime) {
    for text in KERNELS {
        assert_eq!(rt; judged(rt.alloc(), text.as_bytes()), Ok(()), "{text}");
    }
}

/// Bodies with each form of statement and expression.
const BODIES: [&str; 29] = [
    "",
    "A[0] = s;",
    "s = 18446744073709551615;",
    "s += A[0]; s -= 1; s *= 2; s &= 3; s |= 4; s ^= 5;",
    "for (int64_t i = 0; i < n; i++) A[i] = 1; for (int64_t i = 0; i <= n; ++i) A[i] = 2;",
    "for (int64_t i = -1; i < n; i += 1) ;",
    "for (int64_t i = n; i < m; i++) A[n - i] = 1;",
    "if (n < 3) A[0] = 1; else A[0] = 2;",
    "if (n < m && m <= 3 && n > 0 && 1 >= m && n == 4 && m != 0) A[0] = 1;",
    "if (1 < 2) A[0] = 1;",
    "A[2 * n - 3 * (m + 1)] = 1;",
    "A[-(n + -m)] = 1;",
    "A[(1 + 1) * n + n * (3 - 1)] = 1;",
    "A[0 * n] = 1;",
    "B[n][m] = B[m][n];",
    "A[0] = (uint64_t)(n + 1);",
    "A[0] = (uint64_t)n + (uint64_t)-m;",
    "A[0] = (uint64_t)(A[0] + s);",
    "A[0] = (uint64_t)((uint64_t)(s + 1) * 2);",
    "A[0] = (uint64_t)(A[n] + A[m]);",
    "A[0] = (uint64_t)(A[0] < s);",
    "A[0] = (uint64_t)((uint64_t)n != (uint64_t)m);",
    "A[0] = (uint64_t)((((s))) + 1 < (s));",
    "A[0] = umin(A[1], umax(s, 3));",
    "A[0] = ~A[1] & -s | A[2] ^ 7;",
    "A[0] = s / 3 % 18446744073709551615;",
    "A[0] = P[Q[n]] + Q[P[0]];",
    "s = A[P[0]];",
    "B[0][0] = B[P[0]][Q[1]] + B[0][P[0]];",
];

#[test]
fn accepts_what_no_rule_forbids(rt: HostRuntime) {
    for body in BODIES {
        assert_eq!(rt; source_judged(rt.alloc(), body), Ok(()), "{body}");
    }
}
