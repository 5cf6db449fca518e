//! Sources that are run.

pub const SHIFT: &str = "#include <stdint.h>
#pragma balance range n 1 1000
void shift(int64_t n, uint64_t A[n]) {
  for (int64_t i = 0; i < n - 1; i++)
    A[i + 1] = A[i] + 1;
}
";

pub const TWICE: &str = "void twice(const uint64_t A[1], uint64_t B[2]) {
  for (int64_t i = 0; i < 2; i++)
    B[i] = A[0];
}
";

pub const PRODUCT: &str = "#include <stdint.h>
/* C = C + A * B */
#pragma scop
#pragma balance range n 1 500
void mm(int64_t n, const uint64_t A[n][n], const uint64_t B[n][n], uint64_t C[n][n]) {
  for (int64_t i = 0; i < n; i++)
    for (int64_t j = 0; j < n; j++)
      for (int64_t k = 0; k < n; k++)
        C[i][j] += A[i][k] * B[k][j];
}
";

pub const TRIANGLE: &str = "#pragma balance range n 1 500
void tri(int64_t n, uint64_t A[n][n]) {
  for (int64_t k = 0; k < n - 1; k++)
    for (int64_t i = k + 1; i < n; i++)
      for (int64_t j = k + 1; j < n; j++)
        A[i][j] = A[i][j] - A[i][k] * A[k][j];
}
";

pub const JACOBI: &str = "#pragma balance range t 0 1000
#pragma balance range n 2 1000
void jac(int64_t t, int64_t n, uint64_t A[n], uint64_t B[n]) {
  for (int64_t s = 0; s < t; s++) {
    for (int64_t i = 1; i < n - 1; i++)
      B[i] = A[i - 1] + A[i + 1];
    for (int64_t i = 1; i < n - 1; i++)
      A[i] = B[i];
  }
}
";

pub const MIX: &str = "#pragma balance range n 1 500
void mix(int64_t n, uint64_t A[2 * n], const uint64_t B[2 * n], uint64_t C[n]) {
  for (int64_t i = 0; i < n; i++)
    for (int64_t j = 0; j < n; j++) {
      A[2 * i] = B[i + j];
      C[i] = C[i] + 1;
    }
}
";

pub const GATHER: &str = "#pragma balance range n 1 1000
#pragma balance range m 1 1000
void gather(int64_t n, int64_t m, const uint64_t P[n], const uint64_t X[m], uint64_t Y[n]) {
  for (int64_t i = 0; i < n; i++)
    Y[i] = X[P[i]];
}
";

/// Three subscripts, `<=`, several tests, an `else`, a scalar, a cast and compound assignments.
pub const CUBE: &str = "#pragma balance range n 1 9
void cube(int64_t n, uint64_t A[n][n + 1][2], uint64_t B[3]) {
  uint64_t s = 3;
  for (int64_t i = 0; i < n; i++)
    for (int64_t j = 0; j <= n; j++)
      if (i < j && j >= 1 && i != 1)
        A[i][j][0] += s;
      else {
        s = s + (uint64_t)(i + j);
        A[i][j][1] = s;
      }
  B[0] = s;
  B[1] |= 12;
  B[2] ^= 10;
}
";

/// Its last turn stores behind the end of the array.
pub const TOO_FAR: &str = "#pragma balance range n 1 1000
void shift(int64_t n, uint64_t A[n]) {
  for (int64_t i = 0; i < n; i++)
    A[i + 1] = A[i] + 1;
}
";

/// A gather with the tables of its second array. Cells hold their current definitions by how much the number of each is greater
/// than the cell's own, and the counts of the definitions.
pub const PRINTED_GATHER: &[u8] = b"#pragma balance version 1
#pragma balance range n 1 1000
#pragma balance range m 1 1000
uint64_t bal_fn_gather(int64_t n, int64_t m, const uint64_t P[n], const uint64_t X[m], uint64_t Y[n]) {
  uint64_t bal_r0 = 0ull;
  uint64_t bal_r1 = 0ull;
  uint64_t bal_w = 0ull;
  uint64_t bal_cw1 = 0ull;
  uint64_t bal_cx0 = 0ull;
  unsigned __int128 bal_k = 0;
  unsigned __int128 bal_def0 = 0;
  unsigned __int128 bal_use0 = 0;
  unsigned __int128 bal_def1 = 0;
  unsigned __int128 bal_use1 = 0;
  unsigned __int128 bal_def2 = 0;
  unsigned __int128 bal_use2 = 0;
  uint64_t *bal_td1 = calloc((uint64_t)m * 1ull, sizeof(uint64_t));
  if (bal_td1 == 0) { return 1099511627776ull; }
  uint64_t *bal_tu1 = calloc(((uint64_t)m * 1ull) + bal_cw1, sizeof(uint64_t));
  if (bal_tu1 == 0) { return 1099511627776ull; }
  for (int64_t bal_l0 = 0; bal_l0 < n; bal_l0++) {
    bal_cx0 = P[bal_l0];
    if (bal_cx0 >= (uint64_t)(m)) { return 131072ull; }
    bal_tu1[bal_cx0 + bal_td1[bal_cx0]] += 1ull;
  }
  for (int64_t bal_i0 = 0; bal_i0 < n; bal_i0++) {
    bal_r0 = P[bal_i0];
    bal_def0 += (unsigned __int128)bal_r0;
  }
  for (int64_t bal_i0 = 0; bal_i0 < m; bal_i0++) {
    bal_r0 = X[bal_i0];
    bal_k = (unsigned __int128)bal_tu1[((uint64_t)bal_i0 * 1ull) + 0ull];
    bal_def1 += (unsigned __int128)bal_r0 * bal_k;
  }
#pragma balance begin
  for (int64_t i = 0; i < n; i++) {
    bal_r0 = P[i];
    bal_use0 += (unsigned __int128)bal_r0;
    if (bal_r0 >= (uint64_t)(m)) { return 131072ull; }
    bal_r1 = X[bal_r0];
    bal_use1 += (unsigned __int128)bal_r1;
    bal_w = bal_r1;
    Y[i] = bal_w;
  }
  return (uint64_t)(bal_def0 != bal_use0) << 0 | (uint64_t)(bal_def1 != bal_use1) << 1 | (uint64_t)(bal_def2 != bal_use2) << 2;
}
";
