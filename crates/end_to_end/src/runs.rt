//! Runs of the instrumented units of sources, whose ends were worked out by hand.
//!
//! A pass turns as the source, and is made once for each cell and once for each write. So where a source
//! has t turns and w writes, its instrumented unit has t + t * w turns from `begin` on, and before it the
//! turns of a walk over the cells of each array, and t more for each cell. An array that is read
//! through an index array has no passes: its tables take 2 * t turns.

use crate::gathers::{CHAIN, COLUMN, PAIRS};
use crate::made::tried;
use c_tree::Refusal;
use sample_runs::ends::{End, Found, has_cells, has_verdict, is_end};
use sample_runs::texts::{CUBE, GATHER, JACOBI, MIX, PRODUCT, SHIFT, TOO_FAR, TRIANGLE, TWICE};
use std::alloc::Global;
use std::test::Fail;

/// A source, a data text, the cells that it leaves, and the totals, accesses and turns of its instrumented
/// unit.
struct Row {
    source: &'static str,
    data: &'static str,
    cells: &'static [&'static [u64]],
    totals: &'static [(u128, u128)],
    tables: &'static [u64],
    accesses: u128,
    prologue_turns: u128,
    body_turns: u128,
}

const ROWS: [Row; 14] = [
    Row {
        source: SHIFT,
        data: "n = 4\nA = 5 0 0 0\n",
        cells: &[&[5, 6, 7, 8]],
        totals: &[(18, 18)],
        tables: &[],
        accesses: 6,
        prologue_turns: 16,
        body_turns: 12,
    },
    Row {
        source: SHIFT,
        data: "n = 1\nA = 5\n",
        cells: &[&[5]],
        totals: &[(0, 0)],
        tables: &[],
        accesses: 0,
        prologue_turns: 1,
        body_turns: 0,
    },
    Row {
        source: TWICE,
        data: "A = 1\nB = 0 0\n",
        cells: &[&[1], &[1, 1]],
        totals: &[(2, 2), (0, 0)],
        tables: &[],
        accesses: 4,
        prologue_turns: 9,
        body_turns: 6,
    },
    // t = 39; 27 cells in three walks of 12 turns; 27 writes.
    Row {
        source: PRODUCT,
        data: "n = 3\nA = 1 2 3 4 5 6 7 8 9\nB = 1 0 0 0 1 0 0 0 1\nC = 0 0 0 0 0 0 0 0 0\n",
        cells: &[
            &[1, 2, 3, 4, 5, 6, 7, 8, 9],
            &[1, 0, 0, 0, 1, 0, 0, 0, 1],
            &[1, 2, 3, 4, 5, 6, 7, 8, 9],
        ],
        totals: &[(135, 135), (9, 9), (39, 39)],
        tables: &[],
        accesses: 108,
        prologue_turns: 1089,
        body_turns: 1092,
    },
    // t = 10; 9 cells in a walk of 12 turns; 5 writes.
    Row {
        source: TRIANGLE,
        data: "n = 3\nA = 1 1 1 1 2 3 1 3 6\n",
        cells: &[&[1, 1, 1, 1, 1, 2, 1, 2, 1]],
        totals: &[(31, 31)],
        tables: &[],
        accesses: 20,
        prologue_turns: 102,
        body_turns: 60,
    },
    Row {
        source: JACOBI,
        data: "t = 3\nn = 2\nA = 4 9\nB = 0 0\n",
        cells: &[&[4, 9], &[0, 0]],
        totals: &[(0, 0), (0, 0)],
        tables: &[],
        accesses: 0,
        prologue_turns: 16,
        body_turns: 3,
    },
    Row {
        source: JACOBI,
        data: "t = 2\nn = 3\nA = 1 0 2\nB = 0 0 0\n",
        cells: &[&[1, 3, 2], &[0, 3, 0]],
        totals: &[(6, 6), (6, 6)],
        tables: &[],
        accesses: 10,
        prologue_turns: 42,
        body_turns: 30,
    },
    // Passes of 6 turns.
    Row {
        source: MIX,
        data: "n = 2\nA = 0 0 0 0\nB = 1 2 3 4\nC = 0 0\n",
        cells: &[&[2, 0, 3, 0], &[1, 2, 3, 4], &[2, 2]],
        totals: &[(0, 0), (8, 8), (2, 2)],
        tables: &[],
        accesses: 16,
        prologue_turns: 70,
        body_turns: 54,
    },
    // t = 8; 12 cells in a walk of 2 + 6 + 12 turns, and 3 in one of 3; 9 writes. Two old cells of A are
    // read, 3 and 5, and two of B, 2 and 3.
    Row {
        source: CUBE,
        data: "n = 2\nA = 1 2 3 4 5 6 7 8 9 10 11 12\nB = 1 2 3\n",
        cells: &[&[1, 3, 6, 4, 8, 6, 7, 4, 9, 6, 11, 9], &[9, 14, 9]],
        totals: &[(8, 8), (5, 5)],
        tables: &[],
        accesses: 13,
        prologue_turns: 143,
        body_turns: 80,
    },
    // t = 2; walks over 2 cells of each array; passes for 4 cells and 2 writes; X is walked twice.
    Row {
        source: GATHER,
        data: "n = 2\nm = 2\nP = 1 1\nX = 10 20\nY = 0 0\n",
        cells: &[&[1, 1], &[10, 20], &[20, 20]],
        totals: &[(2, 2), (40, 40), (0, 0)],
        tables: &[2, 2],
        accesses: 6,
        prologue_turns: 18,
        body_turns: 6,
    },
    Row {
        source: GATHER,
        data: "n = 3\nm = 2\nP = 0 1 0\nX = 7 9\nY = 0 0 0\n",
        cells: &[&[0, 1, 0], &[7, 9], &[7, 9, 7]],
        totals: &[(1, 1), (23, 23), (0, 0)],
        tables: &[2, 2],
        accesses: 9,
        prologue_turns: 32,
        body_turns: 12,
    },
    // t = 2; walks of 2, 2, 2 + 6 and 2 turns; passes for 6 cells and 2 writes.
    Row {
        source: PAIRS,
        data: "n = 2\nP = 1 0\nQ = 2 2\nX = 1 2 3 4 5 6\nY = 0 0\n",
        cells: &[&[1, 0], &[2, 2], &[1, 2, 3, 4, 5, 6], &[6, 3]],
        totals: &[(1, 1), (4, 4), (9, 9), (0, 0)],
        tables: &[6, 6],
        accesses: 8,
        prologue_turns: 30,
        body_turns: 6,
    },
    // t = 2; walks of 2 + 4, 3 and 2 turns; passes for 6 cells and 2 writes.
    Row {
        source: COLUMN,
        data: "n = 2\nP = 9 0 9 2\nX = 5 6 7\nY = 0 0\n",
        cells: &[&[9, 0, 9, 2], &[5, 6, 7], &[5, 7]],
        totals: &[(2, 2), (12, 12), (0, 0)],
        tables: &[3, 3],
        accesses: 6,
        prologue_turns: 27,
        body_turns: 6,
    },
    // t = 3; walks of 3 and 3 turns; passes for 3 cells. The three writes have no pass.
    Row {
        source: CHAIN,
        data: "n = 3\nP = 0 0 1\nX = 5 0 0\n",
        cells: &[&[0, 0, 1], &[6, 7, 8]],
        totals: &[(1, 1), (18, 18)],
        tables: &[3, 6],
        accesses: 9,
        prologue_turns: 21,
        body_turns: 3,
    },
];

/// Whether the instrumented unit is balanced and ends as the row says.
fn is_right(alloc: Global, row: &Row) -> Result<bool, Refusal> {
    match tried(alloc, row.source.as_bytes(), row.data.as_bytes())? {
        Some(ended) => Ok(is_end(
            &ended,
            &End {
                verdict: Found::Balanced,
                cells: row.cells,
                totals: row.totals,
                tables: row.tables,
                accesses: row.accesses,
                prologue_turns: row.prologue_turns,
                body_turns: row.body_turns,
            },
        )),
        None => Ok(false),
    }
}

#[test]
fn instrumented_units_are_balanced(rt: HostRuntime) -> Result<(), Fail> {
    for row in &ROWS {
        assert!(rt; is_right(rt.alloc(), row)?, "{}{}", row.source, row.data);
    }
    Ok(())
}

/// The last turn's read is made, and its store isn't.
#[test]
fn a_store_behind_the_end_is_outside(rt: HostRuntime) -> Result<(), Fail> {
    let ended = tried(rt.alloc(), TOO_FAR.as_bytes(), b"n = 4\nA = 5 0 0 0\n")?.ok_or("taken")?;
    assert!(rt; has_verdict(&ended, Found::Outside(0)));
    assert!(rt; has_cells(&ended, &[&[5, 6, 7, 8]]));
    assert!(rt; ended.tables.is_empty());
    assert_eq!(rt; ended.accesses, 7);
    Ok(())
}

/// An index behind the end of its dimension ends the run before any cell is read.
#[test]
fn an_index_behind_the_end_is_told(rt: HostRuntime) -> Result<(), Fail> {
    let data = b"n = 2\nm = 2\nP = 1 5\nX = 10 20\nY = 0 0\n";
    let ended = tried(rt.alloc(), GATHER.as_bytes(), data)?.ok_or("taken")?;
    assert!(rt; has_verdict(&ended, Found::Index(1)));
    assert!(rt; has_cells(&ended, &[&[1, 5], &[10, 20], &[0, 0]]));
    assert_eq!(rt; ended.accesses, 0);
    Ok(())
}
