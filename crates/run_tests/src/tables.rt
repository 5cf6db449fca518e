//! Runs of printed texts with tables, checks and words as subscripts.

use crate::printed_runs::printed_ran;
use crate::trials::printed_ends;
use c_tree::Refusal;
use sample_runs::ends::{End, Found, PLAIN};
use std::alloc::Global;
use std::test::Fail;

/// The first table has three entries, and the second has none. Entries past their lengths are set, and read.
const ENTRIES: &[u8] = b"#pragma balance version 1
uint64_t bal_fn_f(uint64_t A[4], uint64_t B[2]) {
  uint64_t w = 2ull;
  uint64_t v = 9ull;
  unsigned __int128 bal_def0 = 0;
  unsigned __int128 bal_use0 = 0;
  unsigned __int128 bal_def1 = 0;
  unsigned __int128 bal_use1 = 0;
  uint64_t *t = calloc(w + 1ull, sizeof(uint64_t));
  if (t == 0) { return 1099511627776ull; }
  w = 0ull;
  uint64_t *e = calloc(w, sizeof(uint64_t));
  if (e == 0) { return 1099511627776ull; }
  w = 2ull;
  v = t[0ull] + t[2ull];
  bal_use0 += (unsigned __int128)v;
  t[0ull] = 7ull;
  t[w] += 5ull;
  t[3ull] = 9ull;
  t[18446744073709551615ull] += 1ull;
  e[0ull] = 4ull;
  v = t[3ull] + t[18446744073709551615ull] + e[0ull] + e[1ull];
  bal_def0 += (unsigned __int128)(t[w] + v);
  for (int64_t i = 1; i <= 3; i++) {
    t[(uint64_t)i] += (uint64_t)i;
  }
  bal_def1 += (unsigned __int128)t[1ull] + (unsigned __int128)t[2ull];
#pragma balance begin
  A[t[1ull] + 1ull] = t[0ull] - t[3ull];
  A[t[t[1ull] + 1ull] - 4ull] += t[umin(w, 1ull)];
  B[t[1ull]] = A[w];
  return (uint64_t)(bal_def0 != bal_use0) << 0 | (uint64_t)(bal_def1 != bal_use1) << 1;
}
";

#[test]
fn past_its_length_a_table_is_zero(rt: HostRuntime) -> Result<(), Fail> {
    let wanted = End {
        verdict: Found::Fault(&[0, 1]),
        cells: &[&[1, 2, 7, 5], &[5, 7]],
        totals: &[(5, 0), (8, 0)],
        tables: &[3, 0],
        accesses: 5,
        prologue_turns: 3,
        ..PLAIN
    };
    assert!(rt; printed_ends(rt.alloc(), ENTRIES, b"A = 1 2 3 4\nB = 5 6\n", &wanted)?);
    Ok(())
}

/// A length that no memory has.
const ENDLESS: &[u8] = b"#pragma balance version 1
uint64_t bal_fn_f(uint64_t A[1]) {
  unsigned __int128 bal_def0 = 0;
  unsigned __int128 bal_use0 = 0;
  uint64_t *t = calloc(18446744073709551615ull, sizeof(uint64_t));
  if (t == 0) { return 1099511627776ull; }
#pragma balance begin
  return (uint64_t)(bal_def0 != bal_use0) << 0;
}
";

fn finds_no_memory(alloc: Global, behind: &[u8], data: &[u8]) -> bool {
    matches!(printed_ran(alloc, behind, data), Err(Refusal::OutOfMemory))
}

#[test]
fn a_table_may_find_no_memory(rt: HostRuntime) {
    assert!(rt; finds_no_memory(rt.alloc(), ENDLESS, b"A = 1\n"));
}

/// A word below the extent, and then a word that is the extent.
const CHECKS: &[u8] = b"#pragma balance version 1
#pragma balance range n 1 9
uint64_t bal_fn_f(int64_t n, uint64_t A[n], uint64_t B[n + 1]) {
  uint64_t w = 1ull;
  unsigned __int128 bal_def0 = 0;
  unsigned __int128 bal_use0 = 0;
  unsigned __int128 bal_def1 = 0;
  unsigned __int128 bal_use1 = 0;
  uint64_t *t = calloc((uint64_t)n, sizeof(uint64_t));
  if (t == 0) { return 1099511627776ull; }
  t[0ull] = w;
#pragma balance begin
  if (w >= (uint64_t)(n)) { return 65536ull; }
  A[t[0ull]] = 5ull;
  w = (uint64_t)n;
  if (w >= (uint64_t)(n + 1)) { return 65536ull; }
  B[w] = A[t[0ull]];
  if (w >= (uint64_t)(n)) { return 131072ull; }
  A[0] = 6ull;
  return (uint64_t)(bal_def0 != bal_use0) << 0 | (uint64_t)(bal_def1 != bal_use1) << 1;
}
";

#[test]
fn a_word_that_is_the_extent_ends_a_run(rt: HostRuntime) -> Result<(), Fail> {
    let last = End {
        verdict: Found::Index(1),
        cells: &[&[0, 5], &[0, 0, 5]],
        totals: &[(0, 0), (0, 0)],
        tables: &[2],
        accesses: 3,
        ..PLAIN
    };
    assert!(rt; printed_ends(rt.alloc(), CHECKS, b"n = 2\nA = 0 0\nB = 0 0 0\n", &last)?);
    let first = End {
        verdict: Found::Index(0),
        cells: &[&[0], &[0, 0]],
        totals: &[(0, 0), (0, 0)],
        tables: &[1],
        ..PLAIN
    };
    assert!(rt; printed_ends(rt.alloc(), CHECKS, b"n = 1\nA = 0\nB = 0 0\n", &first)?);
    Ok(())
}
