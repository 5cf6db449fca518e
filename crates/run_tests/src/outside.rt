//! Runs of sources that leave their arrays.

use crate::trials::source_ends;
use sample_runs::ends::{End, Found, PLAIN};
use sample_runs::texts::{GATHER, TOO_FAR};
use std::test::Fail;

/// The last turn's read is made, and its store isn't.
#[test]
fn a_store_behind_the_end_is_outside(rt: HostRuntime) -> Result<(), Fail> {
    let data = b"n = 4\nA = 5 0 0 0\n";
    let wanted = End {
        verdict: Found::Outside(0),
        cells: &[&[5, 6, 7, 8]],
        accesses: 7,
        body_turns: 4,
        ..PLAIN
    };
    assert!(rt; source_ends(rt.alloc(), TOO_FAR.as_bytes(), data, &wanted)?);
    Ok(())
}

/// The index is read, and the cell that it leads to isn't.
#[test]
fn an_index_may_lead_outside(rt: HostRuntime) -> Result<(), Fail> {
    let data = b"n = 2\nm = 2\nP = 1 5\nX = 10 20\nY = 0 0\n";
    let wanted = End {
        verdict: Found::Outside(1),
        cells: &[&[1, 5], &[10, 20], &[20, 0]],
        accesses: 4,
        body_turns: 2,
        ..PLAIN
    };
    assert!(rt; source_ends(rt.alloc(), GATHER.as_bytes(), data, &wanted)?);
    Ok(())
}

/// Each coordinate is held against its own extent: the cell behind a row is no cell of the next.
const BESIDE: &[u8] = b"void beside(const uint64_t A[2][2], uint64_t B[1]) {
  B[0] = A[0][1];
  B[0] = A[0][2];
}
";

#[test]
fn each_coordinate_has_an_extent(rt: HostRuntime) -> Result<(), Fail> {
    let wanted = End {
        verdict: Found::Outside(0),
        cells: &[&[1, 2, 3, 4], &[2]],
        accesses: 2,
        ..PLAIN
    };
    assert!(rt; source_ends(rt.alloc(), BESIDE, b"A = 1 2 3 4\nB = 0\n", &wanted)?);
    Ok(())
}
