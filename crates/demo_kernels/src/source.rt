//! The source of each kernel.

ghost use Rattle.std.specs.Prelude.{◌≡◌};
ghost use Rattle.c_tree.specs.Layout.{layout};
ghost use Rattle.demo_kernels.specs.Kernels.{kernel_of};

const SHIFT: &[u8] = b"#pragma balance range n 1 1000
void shift(int64_t n, uint64_t A[n]) {
  for (int64_t i = 0; i < n - 1; i++) {
    A[i + 1] = A[i] + 1ull;
  }
}
";

const PRODUCT: &[u8] = b"#pragma balance range n 1 500
void mm(int64_t n, const uint64_t A[n][n], const uint64_t B[n][n], uint64_t C[n][n]) {
  for (int64_t i = 0; i < n; i++) {
    for (int64_t j = 0; j < n; j++) {
      for (int64_t k = 0; k < n; k++) {
        C[i][j] += A[i][k] * B[k][j];
      }
    }
  }
}
";

const JACOBI: &[u8] = b"#pragma balance range t 0 1000
#pragma balance range n 2 1000
void jac(int64_t t, int64_t n, uint64_t A[n], uint64_t B[n]) {
  for (int64_t s = 0; s < t; s++) {
    for (int64_t i = 1; i < n - 1; i++) {
      B[i] = A[i - 1] + A[i + 1];
    }
    for (int64_t i = 1; i < n - 1; i++) {
      A[i] = B[i];
    }
  }
}
";

const GATHER: &[u8] = b"#pragma balance range n 1 1000
#pragma balance range m 1 1000
void gather(int64_t n, int64_t m, const uint64_t P[n], const uint64_t X[m], uint64_t Y[n]) {
  for (int64_t i = 0; i < n; i++) {
    Y[i] = X[P[i]];
  }
}
";

/// The source of the kernel of a number, as it is printed.
pub fn source_of(number: u32) -> &'static [u8]
    ensures { result.now ≡ layout (kernel_of number).unit }
{
    match number % 4 {
        0 => SHIFT,
        1 => PRODUCT,
        2 => JACOBI,
        _ => GATHER,
    }
}
