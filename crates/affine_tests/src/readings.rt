//! Sums that expressions stand for.

use crate::expressions::{has_sum, i, minus, n, plus, reads, times};
use c_tree::{Expr, OutOfMemory};
use std::alloc::Global;
use std::test::Fail;

/// `2 * (i - n)`
fn twice_a_difference(alloc: Global) -> Result<Expr, OutOfMemory> {
    let e = minus(alloc, i(alloc)?, n(alloc)?)?;
    times(alloc, Expr::Lit(2), e)
}

/// `(n + n + 1) * 3`
fn three_times_a_sum(alloc: Global) -> Result<Expr, OutOfMemory> {
    let e = plus(alloc, n(alloc)?, n(alloc)?)?;
    let e = plus(alloc, e, Expr::Lit(1))?;
    times(alloc, e, Expr::Lit(3))
}

fn like_terms_are_collected(alloc: Global) -> Result<bool, OutOfMemory> {
    let e = twice_a_difference(alloc)?;
    let e = plus(alloc, e, three_times_a_sum(alloc)?)?;
    reads(alloc, e, 3, &[(1, 2), (2, 4)])
}

/// `i - i`
fn nothing(alloc: Global) -> Result<Expr, OutOfMemory> {
    minus(alloc, i(alloc)?, i(alloc)?)
}

fn what_cancels_leaves_no_term(alloc: Global) -> Result<bool, OutOfMemory> {
    let e = nothing(alloc)?;
    reads(alloc, e, 0, &[])
}

fn product_of_named_sides(alloc: Global) -> Result<bool, OutOfMemory> {
    let e = nothing(alloc)?;
    has_sum(alloc, times(alloc, e, n(alloc)?)?)
}

fn multiple(alloc: Global, factor: u64) -> Result<bool, OutOfMemory> {
    let e = times(alloc, i(alloc)?, Expr::Lit(factor))?;
    has_sum(alloc, e)
}

fn large_parts(alloc: Global) -> Result<bool, OutOfMemory> {
    let e = minus(alloc, Expr::Lit(1 << 45), Expr::Lit(1 << 45))?;
    has_sum(alloc, e)
}

#[test]
fn reads_expressions(rt: HostRuntime) -> Result<(), Fail> {
    let alloc = rt.alloc();
    assert!(rt; like_terms_are_collected(alloc)?);
    assert!(rt; what_cancels_leaves_no_term(alloc)?);
    assert!(rt; !product_of_named_sides(alloc)?);
    assert!(rt; multiple(alloc, 1 << 44)?);
    assert!(rt; !multiple(alloc, (1 << 44) + 1)?);
    assert!(rt; !large_parts(alloc)?);
    Ok(())
}
