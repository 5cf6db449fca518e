//! Intervals.

ghost use Rattle.std.specs.Prelude.{◌≡◌, ◌^◌, length, pos, true};
ghost use Rattle.affine_sets.specs.Sums.{has_variables_to, is_ordered, sum_lies_in};

use crate::expressions::{i, minus, n, sum, times};
use affine_sets::{Intervals, interval, ordered_sums};
use c_tree::{Affine, Expr, OutOfMemory};
use sqlite_items::Items;
use std::alloc::Global;
use std::test::Fail;

fn ends(a: &Affine, within: &Intervals) -> (i128, i128)
    requires ordered { is_ordered a.now.terms ≡ true }
    requires size { sum_lies_in (pos (2 ^ 44)) a.now ≡ true }
    requires variables { has_variables_to 2 a.now.terms ≡ true }
    requires pairs { length within.now ≡ 2 }
{
    ordered_sums();
    interval(a, within)
}

fn ends_are(
    alloc: Global,
    e: &Expr,
    pairs: &[(i64, i64)],
    wanted: (i128, i128),
) -> Result<bool, OutOfMemory>
    requires { length pairs.now ≡ 2 }
{
    match sum(alloc, e)? {
        Some(a) => {
            let within = Items::from_slice(alloc, pairs)?;
            Ok(ends(&a, &within) == wanted)
        }
        None => Ok(false),
    }
}

fn within_64_bits(alloc: Global) -> Result<bool, OutOfMemory> {
    let e = times(alloc, Expr::Lit(2), i(alloc)?)?;
    let e = minus(alloc, e, n(alloc)?)?;
    ends_are(alloc, &e, &[(-3, 10), (1, 5)], (-11, 19))
}

fn beyond_64_bits(alloc: Global) -> Result<bool, OutOfMemory> {
    let e = times(alloc, Expr::Lit(1 << 44), i(alloc)?)?;
    ends_are(
        alloc,
        &e,
        &[(i64::MIN, i64::MAX), (0, 0)],
        (-(1 << 107), (1 << 107) - (1 << 44)),
    )
}

#[test]
fn gives_both_ends(rt: HostRuntime) -> Result<(), Fail> {
    let alloc = rt.alloc();
    assert!(rt; within_64_bits(alloc)?);
    assert!(rt; beyond_64_bits(alloc)?);
    Ok(())
}
