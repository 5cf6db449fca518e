//! A flip is exposed where the first access of its cell, at its place or later, is a read.

use crate::flipped::flipped;
use c_tree::{Refusal, Verdict};
use sample_runs::texts::{GATHER, SHIFT, TWICE};
use std::alloc::Global;
use std::test::Fail;

/// A compound assignment reads its target first.
const GAIN: &str = "void gain(const uint64_t A[2], uint64_t B[1]) {
  uint64_t s = 3;
  for (int64_t i = 0; i < 2; i++) {
    s += 1;
    B[0] += A[i] * s;
  }
}
";

/// An array, a cell, and whether it is written.
type Access = (u32, u64, bool);

/// A source, a data text, the arrays by number and name with their numbers of cells, and the accesses in order.
struct Row {
    source: &'static str,
    data: &'static str,
    arrays: &'static [(u32, &'static str, u64)],
    accesses: &'static [Access],
}

const ROWS: [Row; 4] = [
    Row {
        source: SHIFT,
        data: "n = 4\nA = 5 0 0 0\n",
        arrays: &[(0, "A", 4)],
        accesses: &[
            (0, 0, false),
            (0, 1, true),
            (0, 1, false),
            (0, 2, true),
            (0, 2, false),
            (0, 3, true),
        ],
    },
    Row {
        source: TWICE,
        data: "A = 1\nB = 0 0\n",
        arrays: &[(0, "A", 1), (1, "B", 2)],
        accesses: &[(0, 0, false), (1, 0, true), (0, 0, false), (1, 1, true)],
    },
    Row {
        source: GAIN,
        data: "A = 6 7\nB = 9\n",
        arrays: &[(0, "A", 2), (1, "B", 1)],
        accesses: &[
            (1, 0, false),
            (0, 0, false),
            (1, 0, true),
            (1, 0, false),
            (0, 1, false),
            (1, 0, true),
        ],
    },
    // The array that is read through another.
    Row {
        source: GATHER,
        data: INDEX_DATA,
        arrays: &[(1, "X", 2), (2, "Y", 2)],
        accesses: &INDEXED,
    },
];

/// Whether a flip of this cell is exposed, these accesses being to come.
fn is_exposed(coming: &[Access], array: u32, cell: u64) -> bool {
    for (other, at, writes) in coming {
        if *other == array && *at == cell {
            return !*writes;
        }
    }
    false
}

/// Whether the run under this flip makes these accesses, finds the array alone where the flip is exposed,
/// and is balanced elsewhere.
fn agrees(
    alloc: Global,
    row: &Row,
    array: u32,
    name: &str,
    cell: u64,
    bit: u64,
    place: usize,
) -> Result<bool, Fail> {
    let coming = row.accesses.get(place..).ok_or("a place")?;
    let flip = format!(in alloc; "flip {name} {cell} {bit} at {place}\n")?;
    let ended = flipped(
        alloc,
        row.source.as_bytes(),
        row.data.as_bytes(),
        flip.as_str().as_bytes(),
    )?
    .ok_or("taken")?;
    if ended.accesses != row.accesses.len() as u128 {
        return Ok(false);
    }
    Ok(match &ended.verdict {
        Verdict::Fault(found) => {
            found.as_slice() == [array].as_slice() && is_exposed(coming, array, cell)
        }
        Verdict::Balanced => !is_exposed(coming, array, cell),
        _ => false,
    })
}

fn all_agree_at(alloc: Global, row: &Row, place: usize) -> Result<bool, Fail> {
    for (array, name, cells) in row.arrays {
        for cell in 0..*cells {
            if !agrees(alloc, row, *array, name, cell, 0, place)?
                || !agrees(alloc, row, *array, name, cell, 63, place)?
            {
                return Ok(false);
            }
        }
    }
    Ok(true)
}

#[test]
fn flips_are_found_where_they_are_exposed(rt: HostRuntime) -> Result<(), Fail> {
    for row in &ROWS {
        for (place, _) in row.accesses.iter().enumerate() {
            assert!(rt;
                all_agree_at(rt.alloc(), row, place)?,
                "{} at {place}",
                row.source
            );
        }
        let last = row.accesses.len();
        assert!(rt;
            all_agree_at(rt.alloc(), row, last)?,
            "{} at its end",
            row.source
        );
    }
    Ok(())
}

const INDEX_DATA: &str = "n = 2\nm = 2\nP = 1 1\nX = 10 20\nY = 0 0\n";

/// Reads of P and X, and a write of Y, twice.
const INDEXED: [Access; 6] = [
    (0, 0, false),
    (1, 1, false),
    (2, 0, true),
    (0, 1, false),
    (1, 1, false),
    (2, 1, true),
];

/// Whether a flip of an index array ends so: at a check where it is exposed and leads out of X, with P among the
/// arrays that differ where it leads to the other cell, and balanced where it isn't exposed.
fn index_agrees(alloc: Global, cell: u64, bit: u64, place: usize) -> Result<bool, Fail> {
    let coming = INDEXED.get(place..).ok_or("a place")?;
    let flip = format!(in alloc; "flip P {cell} {bit} at {place}\n")?;
    let ended = flipped(
        alloc,
        GATHER.as_bytes(),
        INDEX_DATA.as_bytes(),
        flip.as_str().as_bytes(),
    )?
    .ok_or("taken")?;
    Ok(match &ended.verdict {
        Verdict::Index(array) => is_exposed(coming, 0, cell) && bit > 0 && *array == 1,
        Verdict::Fault(found) => {
            is_exposed(coming, 0, cell) && bit == 0 && found.as_slice().contains(&0)
        }
        Verdict::Balanced => !is_exposed(coming, 0, cell),
        _ => false,
    })
}

#[test]
fn flips_of_index_arrays_are_told(rt: HostRuntime) -> Result<(), Fail> {
    for place in 0..=INDEXED.len() {
        for bit in 0..64 {
            for cell in [0, 1] {
                assert!(rt;
                    index_agrees(rt.alloc(), cell, bit, place)?,
                    "P {cell} {bit} at {place}"
                );
            }
        }
    }
    Ok(())
}
