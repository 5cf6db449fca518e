//! The value of a signed expression.

ghost use Rattle.std.specs.Prelude.{◌≡◌, neg_ℤ};
ghost use Rattle.std.specs.Int.{w64, int_wrap, int_min, int_max};
ghost use Rattle.c_tree.specs.Values as values;
ghost use Rattle.c_tree.specs.Values.{signed_holds};
ghost use Rattle.interp.specs.Values.{values_in};
ghost use Rattle.interp.specs.Signed.{signed_of};

use crate::slots::SignedExpr;
use crate::values::{Values, nth};
use c_tree::{BinOp, Rel};

fn combined(op: BinOp, a: i64, b: i64) -> i64
    ensures { result ≡ int_wrap w64 (values.signed_bin op a b) }
{
    match op {
        BinOp::Add => a.wrapping_add(b),
        BinOp::Sub => a.wrapping_sub(b),
        BinOp::Mul => a.wrapping_mul(b),
        _ => 0,
    }
}

fn negated(a: i64) -> i64
    ensures { result ≡ int_wrap w64 (neg_ℤ a) }
{
    a.wrapping_neg()
}

// Out of line, so that the code for a single value stays short.
#[inline(never)]
fn lesser(a: i64, b: i64) -> i64
    ensures { result ≡ int_min a b }
{
    a.min(b)
}

#[inline(never)]
fn greater(a: i64, b: i64) -> i64
    ensures { result ≡ int_max a b }
{
    a.max(b)
}

/// The value of a signed expression of any form.
fn any_signed(e: &SignedExpr, values: &Values<'_>) -> i64
    ensures { result ≡ signed_of e.now (values_in values.now) }
{
    match e {
        SignedExpr::Number(n) => *n,
        SignedExpr::Value(number) => nth(values, *number),
        SignedExpr::Negated(a) => negated(any_signed(a, values)),
        SignedExpr::Combined(op, a, b) => {
            combined(*op, any_signed(a, values), any_signed(b, values))
        }
        SignedExpr::Offset(op, number, n) => combined(*op, nth(values, *number), *n),
        SignedExpr::Least(a, b) => lesser(any_signed(a, values), any_signed(b, values)),
        SignedExpr::Greatest(a, b) => greater(any_signed(a, values), any_signed(b, values)),
    }
}

/// The value of a signed expression, modulo 2^64 in two's complement. The forms of most subscripts and bounds
/// are in line.
#[inline(always)]
pub fn signed(e: &SignedExpr, values: &Values<'_>) -> i64
    ensures { result ≡ signed_of e.now (values_in values.now) }
{
    match e {
        SignedExpr::Value(number) => nth(values, *number),
        SignedExpr::Offset(op, number, n) => combined(*op, nth(values, *number), *n),
        _ => any_signed(e, values),
    }
}

/// Whether two signed values compare so.
#[inline(always)]
pub fn compare(rel: Rel, a: i64, b: i64) -> bool
    ensures { result ≡ signed_holds rel a b }
{
    match rel {
        Rel::Lt => a < b,
        Rel::Le => a <= b,
        Rel::Gt => a > b,
        Rel::Ge => a >= b,
        Rel::Eq => a == b,
        Rel::Ne => a != b,
    }
}
