//! A flip is reported exactly where the next access of its cell is a read, in index arrays too.

use crate::struck::printed_struck;
use c_tree::{Ended, Verdict};
use sample_runs::texts::PRINTED_GATHER;
use std::alloc::Global;
use std::test::Fail;

/// An array, a cell, and whether it is written.
type Access = (u32, u64, bool);

const DATA: &[u8] = b"n = 2\nm = 2\nP = 1 0\nX = 10 20\nY = 0 0\n";

const ACCESSES: [Access; 6] = [
    (0, 0, false),
    (1, 1, false),
    (2, 0, true),
    (0, 1, false),
    (1, 0, false),
    (2, 1, true),
];

/// Whether a flip of this cell is exposed, these accesses being to come.
fn is_exposed(coming: &[Access], array: u32, cell: u64) -> bool {
    for (other, at, writes) in coming {
        if *other == array && *at == cell {
            return !*writes;
        }
    }
    false
}

/// Whether the run reports the flip of this array. One in the index array may lead outside, or to another cell.
fn reports(ended: &Ended, array: u32) -> bool {
    match &ended.verdict {
        Verdict::Fault(found) => if array == 0 {
            found.as_slice().first() == Some(&0)
        } else {
            found.as_slice() == [array].as_slice()
        },
        Verdict::Index(other) => array == 0 && *other == 1,
        _ => false,
    }
}

fn agrees(
    alloc: Global,
    array: u32,
    name: &str,
    cell: u64,
    bit: u64,
    place: usize,
) -> Result<bool, Fail> {
    let coming = ACCESSES.as_slice().get(place..).ok_or("a place")?;
    let flip = format!(in alloc; "flip {name} {cell} {bit} at {place}\n")?;
    let ended = printed_struck(alloc, PRINTED_GATHER, DATA, flip.as_str().as_bytes())?.ok_or(
        "taken",
    )?;
    Ok(if is_exposed(coming, array, cell) {
        reports(&ended, array)
    } else {
        matches!(ended.verdict, Verdict::Balanced)
    })
}

#[test]
fn flips_are_reported_where_they_are_exposed(rt: HostRuntime) -> Result<(), Fail> {
    for place in 0..=ACCESSES.len() {
        for (array, name) in [(0, "P"), (1, "X"), (2, "Y")] {
            for cell in 0..2 {
                for bit in [0, 63] {
                    assert!(rt;
                        agrees(rt.alloc(), array, name, cell, bit, place)?,
                        "{name} {cell} {bit} at {place}"
                    );
                }
            }
        }
    }
    Ok(())
}
