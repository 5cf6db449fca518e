//! The instrumented unit of a text.

use crate::made::instrumented;
use c_tree::Unit;
use sample_runs::texts::{CUBE, GATHER, SHIFT};

fn has_words(made: &Unit, wanted: &[(&str, u64)]) -> bool {
    if made.words.len() != wanted.len() {
        return false;
    }
    for ((name, value), (other, literal)) in made.words.as_slice().iter().zip(wanted) {
        if name.bytes.as_slice() != other.as_bytes() || value != literal {
            return false;
        }
    }
    true
}

fn has_wides(made: &Unit, wanted: &[&str]) -> bool {
    if made.wides.len() != wanted.len() {
        return false;
    }
    for (name, other) in made.wides.as_slice().iter().zip(wanted) {
        if name.bytes.as_slice() != other.as_bytes() {
            return false;
        }
    }
    true
}

#[test]
fn instruments_a_shift(rt: HostRuntime) {
    let Ok(made) = instrumented(rt.alloc(), SHIFT.as_bytes()) else {
        panic!(rt; "refused");
    };
    assert_eq!(rt; made.version, Some(1));
    assert_eq!(rt; made.name.bytes.as_slice(), b"bal_fn_shift".as_slice());
    assert!(rt; has_wides(&made, &["bal_k", "bal_def0", "bal_use0"]));
    let words = [("bal_r0", 0), ("bal_w", 0), ("bal_c0", 0), ("bal_c1", 0)];
    assert!(rt; has_words(&made, &words));
}

/// Two arrays, and a scalar of its own.
#[test]
fn instruments_two_arrays(rt: HostRuntime) {
    let Ok(made) = instrumented(rt.alloc(), CUBE.as_bytes()) else {
        panic!(rt; "refused");
    };
    let wides = ["bal_k", "bal_def0", "bal_use0", "bal_def1", "bal_use1"];
    assert!(rt; has_wides(&made, &wides));
    let words = [
        ("s", 3),
        ("bal_r0", 0),
        ("bal_w", 0),
        ("bal_c0", 0),
        ("bal_c1", 0),
    ];
    assert!(rt; has_words(&made, &words));
}

/// One inspected array of one dimension.
#[test]
fn instruments_a_gather(rt: HostRuntime) {
    let Ok(made) = instrumented(rt.alloc(), GATHER.as_bytes()) else {
        panic!(rt; "refused");
    };
    let wides = [
        "bal_k", "bal_def0", "bal_use0", "bal_def1", "bal_use1", "bal_def2", "bal_use2",
    ];
    assert!(rt; has_wides(&made, &wides));
    let words = [
        ("bal_r0", 0),
        ("bal_r1", 0),
        ("bal_w", 0),
        ("bal_c0", 0),
        ("bal_c1", 0),
        ("bal_cx0", 0),
        ("bal_cw1", 0),
    ];
    assert!(rt; has_words(&made, &words));
}
