//! Sums and multiples.

ghost use Rattle.std.specs.Prelude.{◌≡◌, ◌^◌, pos, true};
ghost use Rattle.affine_sets.specs.Sums.{is_ordered, sum_lies_in};

use crate::expressions::{i, i_minus_n_plus_3, is, n, sum};
use affine_sets::{ordered_sums, plus, times};
use c_tree::{Affine, Expr, OutOfMemory};
use std::alloc::Global;
use std::test::Fail;

/// Three times the sum.
fn three_times(alloc: Global, a: &Affine) -> Result<Affine, OutOfMemory>
    requires ordered { is_ordered a.now.terms ≡ true }
    requires size { sum_lies_in (pos (2 ^ 44)) a.now ≡ true }
{
    ordered_sums();
    times(alloc, a, 3)
}

fn total(alloc: Global, a: &Affine, b: &Affine) -> Result<Affine, OutOfMemory>
    requires left_ordered { is_ordered a.now.terms ≡ true }
    requires right_ordered { is_ordered b.now.terms ≡ true }
    requires left_size { sum_lies_in (pos (2 ^ 44)) a.now ≡ true }
    requires right_size { sum_lies_in (pos (2 ^ 44)) b.now ≡ true }
{
    ordered_sums();
    plus(alloc, a, b)
}

/// Whether three times `i - n + 3` is right.
fn multiplies(alloc: Global) -> Result<bool, OutOfMemory> {
    let e = i_minus_n_plus_3(alloc)?;
    match sum(alloc, &e)? {
        Some(a) => Ok(is(&three_times(alloc, &a)?, 9, &[(1, 3), (2, -3)])),
        None => Ok(false),
    }
}

/// Whether `i - n + 3` with this expression comes to this.
fn adds(alloc: Global, e: &Expr, constant: i64, terms: &[(u32, i64)]) -> Result<bool, OutOfMemory> {
    let first = i_minus_n_plus_3(alloc)?;
    match sum(alloc, &first)? {
        Some(a) => match sum(alloc, e)? {
            Some(b) => Ok(is(&total(alloc, &a, &b)?, constant, terms)),
            None => Ok(false),
        },
        None => Ok(false),
    }
}

#[test]
fn adds_and_multiplies(rt: HostRuntime) -> Result<(), Fail> {
    let alloc = rt.alloc();
    assert!(rt; multiplies(alloc)?);
    assert!(rt; adds(alloc, &n(alloc)?, 3, &[(1, 1)])?);
    assert!(rt; adds(alloc, &i(alloc)?, 3, &[(1, 2), (2, -1)])?);
    Ok(())
}
