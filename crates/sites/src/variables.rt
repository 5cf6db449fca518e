//! The variables at a place, and the sums of expressions there.

ghost use Rattle.std.specs.Prelude.{◌≡◌, IfOk, OnOk, List, map, suc, true, ℕ, ◌++◌, ◌∷◌, []};
ghost use Rattle.affine_sets.specs.Expressions as sums;
ghost use Rattle.affine_sets.specs.Sums.{is_ordered};
ghost use Rattle.c_tree.specs.Names.{ints_in, words};
ghost use Rattle.c_tree.specs.Trees.{expr, param, word};
ghost use Rattle.sites.specs.Outers.{outers_in};
ghost use Rattle.sites.specs.Variables as spec;
ghost use Rattle.sites.specs.Variables.{Holds, IsSum, IsUsable, counted_from, numbers_of, variables_around, variables_in};

use crate::numbers::after;
use crate::outers::Outers;
use affine_sets::affine_of;
use c_tree::{Affine, Expr, Name, NameList, OutOfMemory, Param, Terms, int_names, is_named};
use sqlite_items::Items;
use std::alloc::Global;

/// The signed names at a place, the outermost first, with the numbers of their variables.
#[derive(Drop)]
pub struct Variables {
    pub names: NameList,
    pub numbers: Items<u32>,
}

/// The numbers of these names, from 1 on.
fn counted(alloc: Global, names: &[Name]) -> Result<Items<u32>, OutOfMemory>
    ensures { IfOk result (λ ns. ns ≡ numbers_of (counted_from 1 (words names.now))) }
{
    let mut numbers = Items::new(alloc);
    let mut next: u32 = 1;
    for _name in names {
        numbers.push(next)?;
        next = after(next)?;
    }
    Ok(numbers)
}

fn of_params(alloc: Global, params: &[Param]) -> Result<Variables, OutOfMemory>
    ensures { IfOk result (λ v. Holds v (counted_from 1 (ints_in (map param params.now)))) }
{
    let names = int_names(alloc, params)?;
    let numbers = counted(alloc, names.as_slice())?;
    Ok(Variables { names, numbers })
}

fn add(alloc: Global, v: &mut Variables, x: &Name, number: u32) -> Result<(), OutOfMemory>
    ensures { OnOk result ((xs : List (List ℕ × ℕ)) → Holds v.old xs → Holds v.new (xs ++ (word x.now, number) ∷ [])) }
{
    v.names.push(x.copy(alloc)?)?;
    v.numbers.push(number)?;
    Ok(())
}

fn around(alloc: Global, params: &[Param], outers: &Outers<'_>) -> Result<Variables, OutOfMemory>
    ensures { IfOk result (λ v. Holds v (variables_around (ints_in (map param params.now)) (outers_in outers.now))) }
{
    match outers {
        Outers::Outside => of_params(alloc, params),
        Outers::InLoop(_, number, x, _, _, _, outer) => {
            let mut v = around(alloc, params, outer)?;
            add(alloc, &mut v, x, *number)?;
            Ok(v)
        }
        Outers::InBranch(_, _, _, outer) => around(alloc, params, outer),
    }
}

fn are_different(names: &[Name]) -> bool
    ensures { result ≡ sums.are_different (words names.now) }
{
    let mut left = names;
    while let [x, more @ ..] = left {
        if is_named(more, x) {
            return false;
        }
        left = more;
    }
    true
}

fn is_increasing(numbers: &[u32]) -> bool
    ensures { result ≡ spec.is_increasing_from 1 numbers.now }
{
    let mut left = numbers;
    let mut least: u64 = 1;
    while let [n, more @ ..] = left {
        if (*n as u64) < least {
            return false;
        }
        least = *n as u64 + 1;
        left = more;
    }
    true
}

fn usable(v: Variables) -> Result<Variables, OutOfMemory>
    ensures { IfOk result (λ w. (w ≡ v) × IsUsable w) }
{
    if v.names.len() == v.numbers.len()
        && are_different(v.names.as_slice())
        && is_increasing(v.numbers.as_slice())
    {
        Ok(v)
    } else {
        Err(OutOfMemory)
    }
}

/// The variables at a place.
pub fn variables_at(
    alloc: Global,
    params: &[Param],
    outers: &Outers<'_>,
) -> Result<Variables, OutOfMemory>
    ensures same { IfOk result (λ v. variables_in v ≡ variables_around (ints_in (map param params.now)) (outers_in outers.now)) }
    ensures usable { IfOk result IsUsable }
{
    usable(around(alloc, params, outers)?)
}

fn number_at(numbers: &[u32], i: u32) -> u32
    ensures { result ≡ spec.number_at numbers.now i }
{
    if i == 0 {
        0
    } else {
        match numbers.get((i - 1) as usize) {
            Some(n) => *n,
            None => 0,
        }
    }
}

fn renumbered(alloc: Global, numbers: &[u32], terms: &[(u32, i64)]) -> Result<Terms, OutOfMemory>
    ensures { IfOk result (λ ts. ts ≡ spec.renumbered numbers.now terms.now) }
{
    let mut out = Items::new(alloc);
    for (i, c) in terms {
        out.push((number_at(numbers, *i), *c))?;
    }
    Ok(out)
}

fn moved(alloc: Global, numbers: &[u32], sum: &Affine) -> Result<Affine, OutOfMemory>
    ensures { IfOk result (λ a. (a.constant ≡ sum.now.constant) × (a.terms ≡ spec.renumbered numbers.now sum.now.terms)) }
{
    Ok(Affine {
        constant: sum.constant,
        terms: renumbered(alloc, numbers, sum.terms.as_slice())?,
    })
}

/// The sum of an expression at a place.
pub fn sum_at(alloc: Global, v: &Variables, e: &Expr) -> Result<Affine, OutOfMemory>
    requires { IsUsable v.now }
    ensures { IfOk result (λ a. IsSum (variables_in v.now) (expr e.now) a) }
{
    match affine_of(alloc, e, &v.names)? {
        Some(sum) => moved(alloc, v.numbers.as_slice(), &sum),
        None => Err(OutOfMemory),
    }
}
