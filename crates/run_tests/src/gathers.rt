//! Runs of sources with irregular reads, and of the printed text of one, with and without flips.

use crate::trials::{printed_ends, source_ends, struck_printed_ends, struck_source_ends};
use sample_runs::ends::{End, Found, PLAIN};
use sample_runs::texts::{GATHER, PRINTED_GATHER};
use std::test::Fail;

/// The end of a run of the printed gather of two cells: it has two tables of two entries.
const GATHERED: End = End {
    tables: &[2, 2],
    prologue_turns: 6,
    body_turns: 2,
    ..PLAIN
};

#[test]
fn tables_count_the_reads_of_cells(rt: HostRuntime) -> Result<(), Fail> {
    let data = b"n = 2\nm = 2\nP = 1 1\nX = 10 20\nY = 0 0\n";
    let wanted = End {
        verdict: Found::Balanced,
        cells: &[&[1, 1], &[10, 20], &[20, 20]],
        totals: &[(2, 2), (40, 40), (0, 0)],
        accesses: 6,
        ..GATHERED
    };
    assert!(rt; printed_ends(rt.alloc(), PRINTED_GATHER, data, &wanted)?);
    Ok(())
}

/// Another cell of the same value is read, so the second array stays balanced.
#[test]
fn a_flipped_index_is_a_fault(rt: HostRuntime) -> Result<(), Fail> {
    let data = b"n = 2\nm = 2\nP = 1 1\nX = 20 20\nY = 0 0\n";
    let flip = b"flip P 0 0 at 0\n";
    let wanted = End {
        verdict: Found::Fault(&[0]),
        cells: &[&[0, 1], &[20, 20], &[20, 20]],
        totals: &[(2, 1), (40, 40), (0, 0)],
        accesses: 6,
        ..GATHERED
    };
    assert!(rt; struck_printed_ends(rt.alloc(), &[PRINTED_GATHER, data, flip], &wanted)?);
    let plain = End {
        cells: &[&[0, 1], &[20, 20], &[20, 20]],
        accesses: 6,
        body_turns: 2,
        ..PLAIN
    };
    assert!(rt; struck_source_ends(rt.alloc(), &[GATHER.as_bytes(), data, flip], &plain)?);
    Ok(())
}

/// The index cell is read, and the cell that it leads to isn't.
#[test]
fn a_flipped_index_may_lead_outside(rt: HostRuntime) -> Result<(), Fail> {
    let data = b"n = 2\nm = 2\nP = 1 1\nX = 10 20\nY = 0 0\n";
    let flip = b"flip P 0 1 at 0\n";
    let wanted = End {
        verdict: Found::Index(1),
        cells: &[&[3, 1], &[10, 20], &[0, 0]],
        totals: &[(2, 3), (40, 0), (0, 0)],
        accesses: 1,
        body_turns: 1,
        ..GATHERED
    };
    assert!(rt; struck_printed_ends(rt.alloc(), &[PRINTED_GATHER, data, flip], &wanted)?);
    let plain = End {
        verdict: Found::Outside(1),
        cells: &[&[3, 1], &[10, 20], &[0, 0]],
        accesses: 1,
        body_turns: 1,
        ..PLAIN
    };
    assert!(rt; struck_source_ends(rt.alloc(), &[GATHER.as_bytes(), data, flip], &plain)?);
    Ok(())
}

/// The index is found before `begin`, so there is no access, and no flip is applied.
#[test]
fn an_index_is_compared_in_the_prologue(rt: HostRuntime) -> Result<(), Fail> {
    let data = b"n = 2\nm = 2\nP = 1 5\nX = 10 20\nY = 0 0\n";
    let wanted = End {
        verdict: Found::Index(1),
        cells: &[&[1, 5], &[10, 20], &[0, 0]],
        totals: &[(0, 0), (0, 0), (0, 0)],
        prologue_turns: 2,
        body_turns: 0,
        ..GATHERED
    };
    assert!(rt;
        struck_printed_ends(
            rt.alloc(),
            &[PRINTED_GATHER, data, b"flip P 0 0 at 0\n"],
            &wanted
        )?
    );
    Ok(())
}

/// Both index cells are read, from left to right, and then the cell.
const PAIR: &[u8] = b"#pragma balance range n 1 9
void pair(int64_t n, const uint64_t P[n], const uint64_t Q[n], const uint64_t X[2][3], uint64_t Y[n]) {
  for (int64_t i = 0; i < n; i++)
    Y[i] = X[P[i]][Q[n - 1 - i]];
}
";

/// The end of a run of it on two cells.
const PAIRED: End = End {
    accesses: 8,
    body_turns: 2,
    ..PLAIN
};

/// A flip, and the cells that it leaves.
const PAIR_FLIPS: [(&str, &[&[u64]]); 3] = [
    (
        "flip X 3 0 at 2\n",
        &[&[1, 0], &[2, 0], &[10, 20, 30, 41, 50, 60], &[41, 30]],
    ),
    (
        "flip Q 1 0 at 1\n",
        &[&[1, 0], &[2, 1], &[10, 20, 30, 40, 50, 60], &[50, 30]],
    ),
    (
        "flip P 0 0 at 1\n",
        &[&[0, 0], &[2, 0], &[10, 20, 30, 40, 50, 60], &[40, 30]],
    ),
];

#[test]
fn index_cells_come_before_their_cell(rt: HostRuntime) -> Result<(), Fail> {
    let data = b"n = 2\nP = 1 0\nQ = 2 0\nX = 10 20 30 40 50 60\nY = 0 0\n";
    let wanted = End {
        cells: &[&[1, 0], &[2, 0], &[10, 20, 30, 40, 50, 60], &[40, 30]],
        ..PAIRED
    };
    assert!(rt; source_ends(rt.alloc(), PAIR, data, &wanted)?);
    for (flip, cells) in PAIR_FLIPS {
        let wanted = End { cells, ..PAIRED };
        assert!(rt;
            struck_source_ends(rt.alloc(), &[PAIR, data, flip.as_bytes()], &wanted)?,
            "{flip}"
        );
    }
    Ok(())
}

#[test]
fn both_index_cells_are_read_where_one_leads_outside(rt: HostRuntime) -> Result<(), Fail> {
    let data = b"n = 2\nP = 2 0\nQ = 2 0\nX = 10 20 30 40 50 60\nY = 0 0\n";
    let wanted = End {
        verdict: Found::Outside(2),
        cells: &[&[2, 0], &[2, 0], &[10, 20, 30, 40, 50, 60], &[0, 0]],
        accesses: 2,
        body_turns: 1,
        ..PLAIN
    };
    assert!(rt; source_ends(rt.alloc(), PAIR, data, &wanted)?);
    Ok(())
}

/// An index array that another index array leads to.
const CHAIN: &[u8] = b"#pragma balance range n 1 9
void chain(int64_t n, const uint64_t Q[n], const uint64_t P[n], const uint64_t X[n], uint64_t Y[n]) {
  for (int64_t i = 0; i < n; i++)
    Y[i] = X[P[i]] + P[Q[i]];
}
";

#[test]
fn an_index_array_may_be_read_by_another(rt: HostRuntime) -> Result<(), Fail> {
    let data = b"n = 3\nQ = 2 1 0\nP = 1 2 0\nX = 10 20 30\nY = 0 0 0\n";
    let wanted = End {
        cells: &[&[2, 1, 0], &[1, 2, 0], &[10, 20, 30], &[20, 32, 11]],
        accesses: 15,
        body_turns: 3,
        ..PLAIN
    };
    assert!(rt; source_ends(rt.alloc(), CHAIN, data, &wanted)?);
    Ok(())
}

/// The array that is read irregularly is written, by `=` and by `+=`.
const FOLD: &[u8] = b"#pragma balance range n 1 9
void fold(int64_t n, const uint64_t P[n], uint64_t X[n]) {
  for (int64_t i = 0; i < n; i++) {
    X[i] = X[P[i]] + 1;
    X[i] += X[P[i]];
  }
}
";

/// The end of a run of it on two cells.
const FOLDED: End = End {
    accesses: 14,
    body_turns: 2,
    ..PLAIN
};

/// A flip, and the cells that it leaves.
const FOLD_FLIPS: [(&str, &[&[u64]]); 2] = [
    ("flip X 0 0 at 3\n", &[&[1, 0], &[16, 33]]),
    ("flip X 0 0 at 4\n", &[&[1, 0], &[15, 31]]),
];

#[test]
fn an_old_cell_comes_before_index_cells(rt: HostRuntime) -> Result<(), Fail> {
    let data = b"n = 2\nP = 1 0\nX = 5 7\n";
    let wanted = End {
        cells: &[&[1, 0], &[15, 31]],
        ..FOLDED
    };
    assert!(rt; source_ends(rt.alloc(), FOLD, data, &wanted)?);
    for (flip, cells) in FOLD_FLIPS {
        let wanted = End { cells, ..FOLDED };
        assert!(rt;
            struck_source_ends(rt.alloc(), &[FOLD, data, flip.as_bytes()], &wanted)?,
            "{flip}"
        );
    }
    Ok(())
}
