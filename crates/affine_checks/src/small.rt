//! Constants and coefficients.

ghost use Rattle.std.specs.Prelude.{◌≡◌, true, ◌*ℤ◌, neg_ℤ, map};
ghost use Rattle.c_tree.specs.Trees.{expr, param};
ghost use Rattle.acceptance.specs.Affine as affine;
ghost use Rattle.scopes.specs.Scopes.{loops_in, scope_in};
ghost use Rattle.affine_checks.specs.Linear as spec;

use crate::bounds::{is_small, plus};
use c_tree::{BinOp, Expr, Name, Param};
use scopes::{Around, Scope};

fn kept_constant(k: i128) -> Option<i32>
    ensures { result ≡ spec.kept_constant k }
{
    if is_small(k) { Some(k as i32) } else { None }
}

fn kept_terms(k: i128, c: i128) -> Option<(i32, i32)>
    ensures { result ≡ spec.kept_terms k c }
{
    if is_small(k) && is_small(c) {
        Some((k as i32, c as i32))
    } else {
        None
    }
}

fn times(a: i32, b: i32) -> i64
    ensures { result ≡ a *ℤ b }
{
    a as i64 * b as i64
}

fn negated(a: i32) -> i128
    ensures { result ≡ neg_ℤ a }
{
    -(a as i128)
}

fn constant_of(op: BinOp, k: i32, l: i32) -> i128
    ensures { result ≡ affine.constant_bin op k l }
{
    match op {
        BinOp::Add => k as i128 + l as i128,
        BinOp::Sub => k as i128 - l as i128,
        BinOp::Mul => times(k, l) as i128,
        _ => 0,
    }
}

fn coefficient_of(op: BinOp, k: i32, c: i32, l: i32, d: i32) -> i128
    ensures { result ≡ affine.coefficient_bin op k c l d }
{
    match op {
        BinOp::Add => c as i128 + d as i128,
        BinOp::Sub => c as i128 - d as i128,
        BinOp::Mul => plus(times(k, d), times(c, l)),
        _ => 0,
    }
}

/// The constant, where it is small throughout.
fn constant(e: &Expr) -> Option<i32>
    ensures { result ≡ spec.constant (expr e.now) }
{
    match e {
        Expr::Lit(n) => kept_constant(*n as i128),
        Expr::Un(_, a) => {
            let k = constant(a)?;
            kept_constant(negated(k))
        }
        Expr::Bin(op, a, b) => {
            let k = constant(a)?;
            let l = constant(b)?;
            kept_constant(constant_of(*op, k, l))
        }
        Expr::Least(a, b) => {
            constant(a)?;
            constant(b)?;
            kept_constant(0)
        }
        Expr::Greatest(a, b) => {
            constant(a)?;
            constant(b)?;
            kept_constant(0)
        }
        _ => kept_constant(0),
    }
}

/// The constant and the coefficient of a name, where both are small throughout.
fn terms(x: &Name, e: &Expr) -> Option<(i32, i32)>
    ensures { result ≡ spec.terms x.now.bytes (expr e.now) }
{
    match e {
        Expr::Lit(n) => kept_terms(*n as i128, 0),
        Expr::Var(y) => if x.same(y) {
            kept_terms(0, 1)
        } else {
            kept_terms(0, 0)
        },
        Expr::Un(_, a) => {
            let (k, c) = terms(x, a)?;
            kept_terms(negated(k), negated(c))
        }
        Expr::Bin(op, a, b) => {
            let (k, c) = terms(x, a)?;
            let (l, d) = terms(x, b)?;
            kept_terms(constant_of(*op, k, l), coefficient_of(*op, k, c, l, d))
        }
        Expr::Least(a, b) => {
            terms(x, a)?;
            terms(x, b)?;
            kept_terms(0, 0)
        }
        Expr::Greatest(a, b) => {
            terms(x, a)?;
            terms(x, b)?;
            kept_terms(0, 0)
        }
        _ => kept_terms(0, 0),
    }
}

fn has_small_constant(e: &Expr) -> bool
    ensures { result ≡ spec.has_small_constant (expr e.now) }
{
    match constant(e) {
        Some(_) => true,
        None => false,
    }
}

fn has_small(name: &Name, e: &Expr) -> bool
    requires { spec.has_small_constant (expr e.now) ≡ true }
    ensures { result ≡ affine.has_small name.now.bytes (expr e.now) }
{
    match terms(name, e) {
        Some(_) => true,
        None => false,
    }
}

fn loops_small(e: &Expr, around: &Around<'_>) -> bool
    requires { spec.has_small_constant (expr e.now) ≡ true }
    ensures { result ≡ affine.loops_small (expr e.now) (loops_in around.now) }
{
    match around {
        Around::Nothing => true,
        Around::Within(name, _, _, _, _, outer) => has_small(name, e) && loops_small(e, outer),
    }
}

fn ints_small(e: &Expr, params: &[Param]) -> bool
    requires { spec.has_small_constant (expr e.now) ≡ true }
    ensures { result ≡ affine.ints_small (expr e.now) (map param params.now) }
{
    for p in params {
        if let Param::Int(name) = p {
            if !has_small(name, e) {
                return false;
            }
        }
    }
    true
}

/// Whether the constant and the coefficient of each signed name in scope are within -2^20 to 2^20 throughout.
pub fn has_small_terms(sc: &Scope<'_, '_>, e: &Expr) -> bool
    ensures { result ≡ affine.has_small_terms (scope_in sc.now) (expr e.now) }
{
    has_small_constant(e)
        && loops_small(e, sc.around)
        && ints_small(e, sc.declared.unit.params.as_slice())
}
