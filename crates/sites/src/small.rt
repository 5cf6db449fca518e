//! Constants and coefficients.

ghost use Rattle.std.specs.Prelude.{◌≡◌, ◌+ℤ◌, ◌*ℤ◌, neg_ℤ};
ghost use Rattle.acceptance.specs.Affine as affine;
ghost use Rattle.affine_checks.specs.Linear as spec;
ghost use Rattle.c_tree.specs.Trees.{expr};
ghost use Rattle.sites.specs.Small.{where_small};

use c_tree::{BinOp, Expr, Name};

fn is_small(z: i128) -> bool
    ensures { result ≡ affine.is_small z }
{
    -1048576 <= z && z <= 1048576
}

fn kept_constant(k: i128) -> Option<i32>
    ensures { result ≡ spec.kept_constant k }
{
    if is_small(k) { Some(k as i32) } else { None }
}

fn kept_terms(k: i128, c: i128) -> Option<(i32, i32)>
    ensures { result ≡ spec.kept_terms k c }
{
    if is_small(k) && is_small(c) {
        Some((k as i32, c as i32))
    } else {
        None
    }
}

fn plus(a: i64, b: i64) -> i128
    ensures { result ≡ a +ℤ b }
{
    a as i128 + b as i128
}

fn times(a: i32, b: i32) -> i64
    ensures { result ≡ a *ℤ b }
{
    a as i64 * b as i64
}

fn negated(a: i32) -> i128
    ensures { result ≡ neg_ℤ a }
{
    -(a as i128)
}

fn constant_with(op: BinOp, k: i32, l: i32) -> i128
    ensures { result ≡ affine.constant_bin op k l }
{
    match op {
        BinOp::Add => k as i128 + l as i128,
        BinOp::Sub => k as i128 - l as i128,
        BinOp::Mul => times(k, l) as i128,
        _ => 0,
    }
}

fn coefficient_with(op: BinOp, k: i32, c: i32, l: i32, d: i32) -> i128
    ensures { result ≡ affine.coefficient_bin op k c l d }
{
    match op {
        BinOp::Add => c as i128 + d as i128,
        BinOp::Sub => c as i128 - d as i128,
        BinOp::Mul => plus(times(k, d), times(c, l)),
        _ => 0,
    }
}

/// The constant, where it is small throughout.
fn constant(e: &Expr) -> Option<i32>
    ensures { result ≡ spec.constant (expr e.now) }
{
    match e {
        Expr::Lit(n) => kept_constant(*n as i128),
        Expr::Un(_, a) => {
            let k = constant(a)?;
            kept_constant(negated(k))
        }
        Expr::Bin(op, a, b) => {
            let k = constant(a)?;
            let l = constant(b)?;
            kept_constant(constant_with(*op, k, l))
        }
        Expr::Least(a, b) => {
            constant(a)?;
            constant(b)?;
            kept_constant(0)
        }
        Expr::Greatest(a, b) => {
            constant(a)?;
            constant(b)?;
            kept_constant(0)
        }
        _ => kept_constant(0),
    }
}

/// The constant and the coefficient of a name, where both are small throughout.
fn terms(x: &Name, e: &Expr) -> Option<(i32, i32)>
    ensures { result ≡ spec.terms x.now.bytes (expr e.now) }
{
    match e {
        Expr::Lit(n) => kept_terms(*n as i128, 0),
        Expr::Var(y) => if x.same(y) {
            kept_terms(0, 1)
        } else {
            kept_terms(0, 0)
        },
        Expr::Un(_, a) => {
            let (k, c) = terms(x, a)?;
            kept_terms(negated(k), negated(c))
        }
        Expr::Bin(op, a, b) => {
            let (k, c) = terms(x, a)?;
            let (l, d) = terms(x, b)?;
            kept_terms(constant_with(*op, k, l), coefficient_with(*op, k, c, l, d))
        }
        Expr::Least(a, b) => {
            terms(x, a)?;
            terms(x, b)?;
            kept_terms(0, 0)
        }
        Expr::Greatest(a, b) => {
            terms(x, a)?;
            terms(x, b)?;
            kept_terms(0, 0)
        }
        _ => kept_terms(0, 0),
    }
}

/// The constant of an expression that is small throughout.
pub fn constant_of(e: &Expr) -> i32
    ensures { result ≡ where_small.constant_in (expr e.now) }
{
    match constant(e) {
        Some(k) => k,
        None => 0,
    }
}

/// The coefficient of a name in an expression that is small throughout.
pub fn coefficient_of(x: &Name, e: &Expr) -> i32
    ensures { result ≡ where_small.coefficient_in x.now.bytes (expr e.now) }
{
    match terms(x, e) {
        Some((_, c)) => c,
        None => 0,
    }
}
