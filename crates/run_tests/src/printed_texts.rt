//! Runs of printed texts: totals, verdicts, and what counts as an access and as a turn of the body.

use crate::trials::printed_ends;
use sample_runs::ends::{End, Found, PLAIN};
use sample_texts::texts::GUARDED;
use std::test::Fail;

/// The cells 5, 6 and 7 are read once each, and 8 never.
#[test]
fn a_guarded_shift_is_balanced(rt: HostRuntime) -> Result<(), Fail> {
    let wanted = End {
        verdict: Found::Balanced,
        cells: &[&[5, 6, 7, 8]],
        totals: &[(18, 18)],
        accesses: 6,
        prologue_turns: 4,
        body_turns: 3,
        ..PLAIN
    };
    assert!(rt; printed_ends(rt.alloc(), GUARDED, b"n = 4\nA = 5 0 0 0\n", &wanted)?);
    Ok(())
}

/// Totals have 128 bits. Only the store is an access, since the cell is loaded before `begin`.
const UNEQUAL: &[u8] = b"#pragma balance version 1
uint64_t bal_fn_f(uint64_t A[1], uint64_t B[1], uint64_t C[1]) {
  uint64_t w = 0ull;
  unsigned __int128 bal_def0 = 0;
  unsigned __int128 bal_use0 = 0;
  unsigned __int128 bal_def1 = 0;
  unsigned __int128 bal_use1 = 0;
  unsigned __int128 bal_def2 = 0;
  unsigned __int128 bal_use2 = 0;
  w = A[0];
  bal_def0 += (unsigned __int128)w * bal_wide(1ull, 2ull);
  for (int64_t i = bal_max(0, 1); i <= bal_min(2, 3); i++) {
    bal_def1 += (unsigned __int128)w;
  }
#pragma balance begin
  B[0] = w + 1ull;
  bal_use1 += bal_def1;
  bal_use2 += (unsigned __int128)w / 3;
  return (uint64_t)(bal_def0 != bal_use0) << 0 | (uint64_t)(bal_def1 != bal_use1) << 1 | (uint64_t)(bal_def2 != bal_use2) << 2;
}
";

#[test]
fn a_fault_names_the_arrays_in_order(rt: HostRuntime) -> Result<(), Fail> {
    let wanted = End {
        verdict: Found::Fault(&[0, 2]),
        cells: &[&[7], &[8], &[9]],
        totals: &[(129127208515966861326, 0), (14, 14), (0, 2)],
        accesses: 1,
        prologue_turns: 2,
        ..PLAIN
    };
    assert!(rt; printed_ends(rt.alloc(), UNEQUAL, b"A = 7\nB = 0\nC = 9\n", &wanted)?);
    Ok(())
}

/// What stands behind a check that is met isn't run.
const CHECKED: &[u8] = b"#pragma balance version 1
#pragma balance range n 1 9
uint64_t bal_fn_f(int64_t n, uint64_t A[n], uint64_t B[n]) {
  uint64_t w = 0ull;
  unsigned __int128 bal_def0 = 0;
  unsigned __int128 bal_use0 = 0;
  unsigned __int128 bal_def1 = 0;
  unsigned __int128 bal_use1 = 0;
#pragma balance begin
  w = A[0];
  if (w >= (uint64_t)(n)) { return 131072ull; }
  B[w] = 5ull;
  return (uint64_t)(bal_def0 != bal_use0) << 0 | (uint64_t)(bal_def1 != bal_use1) << 1;
}
";

#[test]
fn a_check_ends_a_run(rt: HostRuntime) -> Result<(), Fail> {
    let inside = End {
        verdict: Found::Balanced,
        cells: &[&[1, 0], &[0, 5]],
        totals: &[(0, 0), (0, 0)],
        accesses: 2,
        ..PLAIN
    };
    assert!(rt; printed_ends(rt.alloc(), CHECKED, b"n = 2\nA = 1 0\nB = 0 0\n", &inside)?);
    let behind = End {
        verdict: Found::Index(1),
        cells: &[&[2, 0], &[0, 0]],
        accesses: 1,
        ..inside
    };
    assert!(rt; printed_ends(rt.alloc(), CHECKED, b"n = 2\nA = 2 0\nB = 0 0\n", &behind)?);
    Ok(())
}
