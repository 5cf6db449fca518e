//! Bounds on differences.

use crate::expressions::{i, i_minus_n_plus_3, minus, n, plus, sum, times};
use affine_sets::{Diff, as_difference};
use c_tree::{Expr, OutOfMemory};
use std::alloc::Global;
use std::test::Fail;

/// Whether the expression says this, where it has a sum.
fn says(alloc: Global, e: Expr, wanted: Option<Diff>) -> Result<bool, OutOfMemory> {
    let Some(a) = sum(alloc, &e)? else {
        return Ok(false);
    };
    if -(1 << 42) <= a.constant && a.constant <= 1 << 42 {
        Ok(as_difference(&a) == wanted)
    } else {
        Ok(false)
    }
}

fn two_variables(alloc: Global) -> Result<bool, OutOfMemory> {
    says(
        alloc,
        i_minus_n_plus_3(alloc)?,
        Some(Diff { x: 1, y: 2, c: -3 }),
    )
}

fn the_other_way_round(alloc: Global) -> Result<bool, OutOfMemory> {
    let e = minus(alloc, n(alloc)?, i(alloc)?)?;
    says(alloc, e, Some(Diff { x: 2, y: 1, c: 0 }))
}

fn one_variable(alloc: Global) -> Result<bool, OutOfMemory> {
    let e = minus(alloc, i(alloc)?, Expr::Lit(5))?;
    says(alloc, e, Some(Diff { x: 1, y: 0, c: 5 }))
}

fn minus_one_variable(alloc: Global) -> Result<bool, OutOfMemory> {
    let e = minus(alloc, Expr::Lit(5), n(alloc)?)?;
    says(alloc, e, Some(Diff { x: 0, y: 2, c: -5 }))
}

fn constant(alloc: Global) -> Result<bool, OutOfMemory> {
    says(alloc, Expr::Lit(7), Some(Diff { x: 0, y: 0, c: -7 }))
}

fn twice_a_variable(alloc: Global) -> Result<bool, OutOfMemory> {
    let e = times(alloc, Expr::Lit(2), i(alloc)?)?;
    says(alloc, e, None)
}

fn sum_of_variables(alloc: Global) -> Result<bool, OutOfMemory> {
    let e = plus(alloc, i(alloc)?, n(alloc)?)?;
    says(alloc, e, None)
}

#[test]
fn says_differences(rt: HostRuntime) -> Result<(), Fail> {
    let alloc = rt.alloc();
    assert!(rt; two_variables(alloc)?);
    assert!(rt; the_other_way_round(alloc)?);
    assert!(rt; one_variable(alloc)?);
    assert!(rt; minus_one_variable(alloc)?);
    assert!(rt; constant(alloc)?);
    assert!(rt; twice_a_variable(alloc)?);
    assert!(rt; sum_of_variables(alloc)?);
    Ok(())
}
