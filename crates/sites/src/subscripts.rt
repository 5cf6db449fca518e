//! The subscripts of a site.

ghost use Rattle.std.specs.Prelude.{◌≡◌, IfOk, Some, suc};
ghost use Rattle.std.specs.List.{slice_get};
ghost use Rattle.c_tree.specs.Names.{words};
ghost use Rattle.c_tree.specs.Trees.{expr, exprs, word};
ghost use Rattle.sites.specs.Infos.{AreSums, ShowsSubscript, ShowsSubscripts};
ghost use Rattle.sites.specs.Variables.{IsUsable, variables_in};

use crate::info::{Subscript, Subscripts};
use crate::numbers::after;
use crate::variables::{Variables, sum_at};
use c_tree::{Affines, Expr, Exprs, Name, OutOfMemory};
use sqlite_items::Items;
use std::alloc::Global;

fn sums_at(alloc: Global, v: &Variables, es: &Exprs) -> Result<Affines, OutOfMemory>
    requires { IsUsable v.now }
    ensures { IfOk result (λ sums. AreSums (variables_in v.now) sums (exprs es.now)) }
{
    let mut out = Items::new(alloc);
    for e in es.as_slice() {
        out.push(sum_at(alloc, v, e)?)?;
    }
    Ok(out)
}

/// The number of an array, from 0.
fn number_of(arrays: &[Name], x: &Name) -> Result<u32, OutOfMemory>
    ensures { IfOk result (λ k. slice_get (words arrays.now) k ≡ Some (word x.now)) }
{
    let mut number: u32 = 0;
    for other in arrays {
        if other.same(x) {
            return Ok(number);
        }
        number = after(number)?;
    }
    Err(OutOfMemory)
}

fn subscript(
    alloc: Global,
    arrays: &[Name],
    v: &Variables,
    e: &Expr,
) -> Result<Subscript, OutOfMemory>
    requires { IsUsable v.now }
    ensures { IfOk result (λ s. ShowsSubscript (words arrays.now) (variables_in v.now) s (expr e.now)) }
{
    match e {
        Expr::Cell(x, at) => {
            let number = number_of(arrays, x)?;
            Ok(Subscript::Index(number, sums_at(alloc, v, at)?))
        }
        _ => Ok(Subscript::Plain(sum_at(alloc, v, e)?)),
    }
}

/// The subscripts of a cell.
pub fn subscripts_at(
    alloc: Global,
    arrays: &[Name],
    v: &Variables,
    es: &Exprs,
) -> Result<Subscripts, OutOfMemory>
    requires { IsUsable v.now }
    ensures { IfOk result (λ ss. ShowsSubscripts (words arrays.now) (variables_in v.now) ss (exprs es.now)) }
{
    let mut out = Items::new(alloc);
    for e in es.as_slice() {
        out.push(subscript(alloc, arrays, v, e)?)?;
    }
    Ok(out)
}
