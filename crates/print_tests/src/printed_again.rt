//! A source and a printed text with every operator, statement and literal form: what is printed of them is read, and
//! printed to the same bytes.

use c_parser::parse;
use c_printer::print;
use c_tree::{Refusal, preamble};
use sample_texts::texts::joined;
use std::alloc::Global;
use std::test::Fail;

const SOURCE: &[u8] = b"# include <stdint.h> // words
#pragma balance range n -0x1 9
#\tpragma balance range m 0 0xFF
void all(int64_t n, int64_t m, const uint64_t P[n], uint64_t A[n][m + 1], uint64_t B[2][3][n * 2 - m]) {
  uint64_t s = 0; uint64_t t = 0xffffffffffffffffuLL;
  ;
  { { s = 1u; } }
  for (int64_t i = 0; i < n; i++) { for (int64_t j = -m; j <= n - (i + 1); ++j) A[i][j] += P[i] * s; }
  for (int64_t k = ~n; k < 3; k += 1) {}
  s -= t; s *= t & s; t |= s | t; t ^= s ^ t; t &= 7;
  if (n < m && (m <= 3) && n + 1 > m && n >= m && n == 0 && m != 1) s = umin(s, umax(t, 5)); else if (s < t) t = s / 3 % 4; else { B[0][1][n] = s << 2 >> 3; }
  if (n < 1) if (m < 1) s = (uint64_t)(n - m); else s = (uint64_t)(s + 1 < t);
  s = -s + ~t - (s - (t + 1)) * -(-s);
}
";

const PRINTED: &[u8] = b"#pragma balance version 1
#pragma balance range n 1 9
uint64_t all(int64_t n, const uint64_t P[n], uint64_t A[n][n]) {
  uint64_t r = 0x1; unsigned __int128 w = 0;
  uint64_t *c = calloc(n * n, sizeof(uint64_t)); if (c == 0) { return 1099511627776u; }
  for (int64_t i = bal_max(0, n - 3); i < bal_min(n, 4); i++) c[i] = P[i];
#pragma balance begin
  if (r >= (uint64_t)(n)) { return 65536; }
  if (r >= (uint64_t)(n)) { r = 65536; }
  w = bal_wide(1, 2) * (unsigned __int128)r / 3;
  return (uint64_t)(bal_def0 != bal_use0) << 0 | (uint64_t)(bal_def1 != bal_use1) << 1;
}
";

fn printed(alloc: Global, text: &[u8]) -> Result<Vec<u8>, Refusal> {
    Ok(print(alloc, &parse(alloc, text)?)?)
}

/// What is printed of the text, and of that again.
fn twice(alloc: Global, text: &[u8]) -> Result<(Vec<u8>, Vec<u8>), Refusal> {
    let once = printed(alloc, text)?;
    let again = printed(alloc, once.as_slice())?;
    Ok((once, again))
}

#[test]
fn prints_a_source_again(rt: HostRuntime) {
    match twice(rt.alloc(), SOURCE) {
        Ok((once, again)) => assert_eq!(rt; once.as_slice(), again.as_slice()),
        Err(_) => panic!(rt; "refused"),
    }
}

#[test]
fn prints_a_printed_text_again(rt: HostRuntime) -> Result<(), Fail> {
    let text = joined(rt.alloc(), &[preamble(), PRINTED])?;
    match twice(rt.alloc(), text.as_slice()) {
        Ok((once, again)) => assert_eq!(rt; once.as_slice(), again.as_slice()),
        Err(_) => panic!(rt; "refused"),
    }
    Ok(())
}
