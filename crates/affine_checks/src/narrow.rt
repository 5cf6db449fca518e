//! The intervals of expressions.

ghost use Rattle.std.specs.Prelude.{◌≡◌, neg_ℤ, option_map};
ghost use Rattle.std.specs.Int.{int_min, int_max};
ghost use Rattle.c_tree.specs.Trees.{expr};
ghost use Rattle.acceptance.specs.Affine as affine;
ghost use Rattle.scopes.specs.Intervals.{interval_in};
ghost use Rattle.affine_checks.specs.Linear as spec;
ghost use Rattle.affine_checks.specs.Shown.{intervals_at, wide_in};

use crate::bounds::{Wide, as_wide, from_ends, greater, kept, lesser, minus, plus, times};
use c_tree::{BinOp, Expr};
use scopes::{Interval, Scope};

fn least_of_four(p: i128, q: i128, r: i128, s: i128) -> i128
    ensures { result ≡ int_min (int_min p q) (int_min r s) }
{
    lesser(lesser(p, q), lesser(r, s))
}

fn greatest_of_four(p: i128, q: i128, r: i128, s: i128) -> i128
    ensures { result ≡ int_max (int_max p q) (int_max r s) }
{
    greater(greater(p, q), greater(r, s))
}

fn from_corners(p: i128, q: i128, r: i128, s: i128) -> Wide
    ensures { wide_in result ≡ (int_min (int_min p q) (int_min r s), int_max (int_max p q) (int_max r s)) }
{
    from_ends(least_of_four(p, q, r, s), greatest_of_four(p, q, r, s))
}

fn product(i: Interval, j: Interval) -> Wide
    ensures { wide_in result ≡ affine.product (interval_in i) (interval_in j) }
{
    from_corners(
        times(i.least, j.least),
        times(i.least, j.greatest),
        times(i.greatest, j.least),
        times(i.greatest, j.greatest),
    )
}

fn negated(i: Interval) -> Wide
    ensures { wide_in result ≡ (neg_ℤ i.greatest, neg_ℤ i.least) }
{
    Wide {
        least: -(i.greatest as i128),
        greatest: -(i.least as i128),
    }
}

fn combined(op: BinOp, i: Interval, j: Interval) -> Wide
    ensures { wide_in result ≡ affine.interval_bin op (interval_in i) (interval_in j) }
{
    match op {
        BinOp::Add => from_ends(plus(i.least, j.least), plus(i.greatest, j.greatest)),
        BinOp::Sub => from_ends(minus(i.least, j.greatest), minus(i.greatest, j.least)),
        BinOp::Mul => product(i, j),
        _ => from_ends(0, 0),
    }
}

fn least_of(i: Interval, j: Interval) -> Wide
    ensures { wide_in result ≡ (int_min i.least j.least, int_min i.greatest j.greatest) }
{
    Wide {
        least: lesser(i.least as i128, j.least as i128),
        greatest: lesser(i.greatest as i128, j.greatest as i128),
    }
}

fn greatest_of(i: Interval, j: Interval) -> Wide
    ensures { wide_in result ≡ (int_max i.least j.least, int_max i.greatest j.greatest) }
{
    Wide {
        least: greater(i.least as i128, j.least as i128),
        greatest: greater(i.greatest as i128, j.greatest as i128),
    }
}

/// The interval of an expression, where it is narrow throughout.
pub fn narrow(sc: &Scope<'_, '_>, e: &Expr) -> Option<Interval>
    ensures { option_map interval_in result ≡ spec.narrow (intervals_at sc.now) (expr e.now) }
{
    match e {
        Expr::Lit(n) => kept(from_ends(*n as i128, *n as i128)),
        Expr::Var(x) => kept(as_wide(sc.interval_of(x))),
        Expr::Un(_, a) => {
            let i = narrow(sc, a)?;
            kept(negated(i))
        }
        Expr::Bin(op, a, b) => {
            let i = narrow(sc, a)?;
            let j = narrow(sc, b)?;
            kept(combined(*op, i, j))
        }
        Expr::Least(a, b) => {
            let i = narrow(sc, a)?;
            let j = narrow(sc, b)?;
            kept(least_of(i, j))
        }
        Expr::Greatest(a, b) => {
            let i = narrow(sc, a)?;
            let j = narrow(sc, b)?;
            kept(greatest_of(i, j))
        }
        _ => kept(from_ends(0, 0)),
    }
}

/// Whether the interval is narrow throughout.
pub fn is_narrow(sc: &Scope<'_, '_>, e: &Expr) -> bool
    ensures { result ≡ affine.holds_throughout (affine.is_narrow (intervals_at sc.now)) (expr e.now) }
{
    match narrow(sc, e) {
        Some(_) => true,
        None => false,
    }
}

/// Whether the interval is narrow throughout and begins below 1.
pub fn is_low(sc: &Scope<'_, '_>, e: &Expr) -> bool
    ensures { result ≡ spec.is_low (intervals_at sc.now) (expr e.now) }
{
    match narrow(sc, e) {
        Some(i) => i.least < 1,
        None => false,
    }
}
