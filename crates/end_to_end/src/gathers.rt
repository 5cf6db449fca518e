//! Texts of sources that read through index arrays.

/// Two index arrays in one cell.
pub const PAIRS: &str = "#pragma balance range n 1 9
void pairs(int64_t n, const uint64_t P[n], const uint64_t Q[n], const uint64_t X[2][3], uint64_t Y[n]) {
  for (int64_t i = 0; i < n; i++)
    Y[i] = X[P[i]][Q[i]];
}
";

/// An index array of two dimensions.
pub const COLUMN: &str = "#pragma balance range n 1 9
void column(int64_t n, const uint64_t P[n][2], const uint64_t X[3], uint64_t Y[n]) {
  for (int64_t i = 0; i < n; i++)
    Y[i] = X[P[i][1]];
}
";

/// An array that is read through an index array and written.
pub const CHAIN: &str = "#pragma balance range n 1 9
void chain(int64_t n, const uint64_t P[n], uint64_t X[n]) {
  for (int64_t i = 0; i < n; i++)
    X[i] = X[P[i]] + 1;
}
";
