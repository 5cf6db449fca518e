//! Expressions over the names `i` and `n`.

ghost use Rattle.std.specs.Prelude.{◌≡◌, ◌^◌, [], ◌∷◌, pos, true, IfOk};
ghost use Rattle.std.specs.Option.{IfSome};
ghost use Rattle.c_tree.specs.Names.{words};
ghost use Rattle.affine_sets.specs.Sums.{has_variables_to, is_ordered, sum_lies_in};

use affine_sets::affine_of;
use c_tree::{Affine, BinOp, Expr, Name, NameList, OutOfMemory};
use sqlite_items::Items;
use std::alloc::Global;

/// `i` and `n`
fn names(alloc: Global) -> Result<NameList, OutOfMemory>
    ensures { IfOk result (λ ns. words ns ≡ (105 ∷ []) ∷ (110 ∷ []) ∷ []) }
{
    let mut names = Items::new(alloc);
    names.push(Name {
        bytes: Items::from_slice(alloc, b"i")?,
    })?;
    names.push(Name {
        bytes: Items::from_slice(alloc, b"n")?,
    })?;
    Ok(names)
}

fn variable(alloc: Global, name: &[u8]) -> Result<Expr, OutOfMemory> {
    Ok(Expr::Var(Name {
        bytes: Items::from_slice(alloc, name)?,
    }))
}

pub fn i(alloc: Global) -> Result<Expr, OutOfMemory> {
    variable(alloc, b"i")
}

pub fn n(alloc: Global) -> Result<Expr, OutOfMemory> {
    variable(alloc, b"n")
}

fn binary(alloc: Global, op: BinOp, a: Expr, b: Expr) -> Result<Expr, OutOfMemory> {
    let a = Box::new(alloc, a)?;
    Ok(Expr::Bin(op, a, Box::new(alloc, b)?))
}

/// The sum of an expression over `i` and `n`.
pub fn sum(alloc: Global, e: &Expr) -> Result<Option<Affine>, OutOfMemory>
    ensures ordered { IfOk result (λ r. IfSome r (λ a. is_ordered a.terms ≡ true)) }
    ensures size { IfOk result (λ r. IfSome r (λ a. sum_lies_in (pos (2 ^ 44)) a ≡ true)) }
    ensures variables { IfOk result (λ r. IfSome r (λ a. has_variables_to 2 a.terms ≡ true)) }
{
    let names = names(alloc)?;
    affine_of(alloc, e, &names)
}

pub fn minus(alloc: Global, a: Expr, b: Expr) -> Result<Expr, OutOfMemory> {
    binary(alloc, BinOp::Sub, a, b)
}

pub fn plus(alloc: Global, a: Expr, b: Expr) -> Result<Expr, OutOfMemory> {
    binary(alloc, BinOp::Add, a, b)
}

pub fn times(alloc: Global, a: Expr, b: Expr) -> Result<Expr, OutOfMemory> {
    binary(alloc, BinOp::Mul, a, b)
}

pub fn i_minus_n_plus_3(alloc: Global) -> Result<Expr, OutOfMemory> {
    let e = minus(alloc, i(alloc)?, n(alloc)?)?;
    plus(alloc, e, Expr::Lit(3))
}

/// Whether the sum is this one.
pub fn is(a: &Affine, constant: i64, terms: &[(u32, i64)]) -> bool {
    a.constant == constant && a.terms.as_slice() == terms
}

/// Whether the sum of an expression is this one.
pub fn reads(
    alloc: Global,
    e: Expr,
    constant: i64,
    terms: &[(u32, i64)],
) -> Result<bool, OutOfMemory> {
    match sum(alloc, &e)? {
        Some(a) => Ok(is(&a, constant, terms)),
        None => Ok(false),
    }
}

/// Whether an expression has a sum.
pub fn has_sum(alloc: Global, e: Expr) -> Result<bool, OutOfMemory> {
    match sum(alloc, &e)? {
        Some(_) => Ok(true),
        None => Ok(false),
    }
}
