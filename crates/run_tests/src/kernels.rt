//! Runs of sources that end plain.

use crate::trials::source_ends;
use sample_runs::ends::{End, PLAIN};
use sample_runs::texts::{GATHER, JACOBI, MIX, PRODUCT, SHIFT, TRIANGLE, TWICE};
use std::test::Fail;

/// A source, a data text, the cells that it leaves, and how many accesses and turns it makes.
struct Row {
    source: &'static str,
    data: &'static str,
    cells: &'static [&'static [u64]],
    accesses: u128,
    turns: u128,
}

const ROWS: [Row; 9] = [
    Row {
        source: SHIFT,
        data: "n = 4\nA = 5 0 0 0\n",
        cells: &[&[5, 6, 7, 8]],
        accesses: 6,
        turns: 3,
    },
    Row {
        source: SHIFT,
        data: "n = 1\nA = 5\n",
        cells: &[&[5]],
        accesses: 0,
        turns: 0,
    },
    Row {
        source: TWICE,
        data: "A = 1\nB = 0 0\n",
        cells: &[&[1], &[1, 1]],
        accesses: 4,
        turns: 2,
    },
    Row {
        source: PRODUCT,
        data: "n = 3\nA = 1 2 3 4 5 6 7 8 9\nB = 1 0 0 0 1 0 0 0 1\nC = 0 0 0 0 0 0 0 0 0\n",
        cells: &[
            &[1, 2, 3, 4, 5, 6, 7, 8, 9],
            &[1, 0, 0, 0, 1, 0, 0, 0, 1],
            &[1, 2, 3, 4, 5, 6, 7, 8, 9],
        ],
        accesses: 108,
        turns: 39,
    },
    Row {
        source: TRIANGLE,
        data: "n = 3\nA = 1 1 1 1 2 3 1 3 6\n",
        cells: &[&[1, 1, 1, 1, 1, 2, 1, 2, 1]],
        accesses: 20,
        turns: 10,
    },
    Row {
        source: JACOBI,
        data: "t = 3\nn = 2\nA = 4 9\nB = 0 0\n",
        cells: &[&[4, 9], &[0, 0]],
        accesses: 0,
        turns: 3,
    },
    Row {
        source: JACOBI,
        data: "t = 2\nn = 3\nA = 1 0 2\nB = 0 0 0\n",
        cells: &[&[1, 3, 2], &[0, 3, 0]],
        accesses: 10,
        turns: 6,
    },
    Row {
        source: MIX,
        data: "n = 2\nA = 0 0 0 0\nB = 1 2 3 4\nC = 0 0\n",
        cells: &[&[2, 0, 3, 0], &[1, 2, 3, 4], &[2, 2]],
        accesses: 16,
        turns: 6,
    },
    Row {
        source: GATHER,
        data: "n = 2\nm = 2\nP = 1 1\nX = 10 20\nY = 0 0\n",
        cells: &[&[1, 1], &[10, 20], &[20, 20]],
        accesses: 6,
        turns: 2,
    },
];

#[test]
fn sources_end_as_their_statements_say(rt: HostRuntime) -> Result<(), Fail> {
    for row in &ROWS {
        let wanted = End {
            cells: row.cells,
            accesses: row.accesses,
            body_turns: row.turns,
            ..PLAIN
        };
        let (source, data) = (row.source.as_bytes(), row.data.as_bytes());
        assert!(rt;
            source_ends(rt.alloc(), source, data, &wanted)?,
            "{}{}",
            row.source,
            row.data
        );
    }
    Ok(())
}
