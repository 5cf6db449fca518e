//! The loops and conditions around a place.

ghost use Rattle.std.specs.Prelude.{IfOk, List, map, ℕ};
ghost use Rattle.c_tree.specs.Names.{ints_in};
ghost use Rattle.c_tree.specs.Trees.{a_test, expr, param, tests};
ghost use Rattle.sites.specs.Infos.{Pairs, ShowsBounds, ShowsCondition, ShowsLoop, ShowsSides, ShowsTests, loops_around, tests_around};
ghost use Rattle.sites.specs.Outers.{outers_in};
ghost use Rattle.sites.specs.Variables.{IsSum, IsUsable, variables_in};

use crate::info::{LoopInfo, Loops, Sides, SiteTests, TestInfo};
use crate::outers::Outers;
use crate::variables::{Variables, sum_at, variables_at};
use c_tree::{Affine, Expr, OutOfMemory, Param, Rel, Tests};
use sqlite_items::Items;
use std::alloc::Global;

/// Both sums at a place.
fn two_sums(
    alloc: Global,
    v: &Variables,
    a: &Expr,
    b: &Expr,
) -> Result<(Affine, Affine), OutOfMemory>
    requires { IsUsable v.now }
    ensures { IfOk result (λ s. IsSum (variables_in v.now) (expr a.now) s.0 × IsSum (variables_in v.now) (expr b.now) s.1) }
{
    let first = sum_at(alloc, v, a)?;
    let second = sum_at(alloc, v, b)?;
    Ok((first, second))
}

fn side(
    alloc: Global,
    v: &Variables,
    test: &(Rel, Expr, Expr),
) -> Result<(Rel, Affine, Affine), OutOfMemory>
    requires { IsUsable v.now }
    ensures { IfOk result (λ s. ShowsSides (variables_in v.now) s (a_test test.now)) }
{
    let (left, right) = two_sums(alloc, v, &test.1, &test.2)?;
    Ok((test.0, left, right))
}

fn sides(alloc: Global, v: &Variables, ts: &Tests) -> Result<Sides, OutOfMemory>
    requires { IsUsable v.now }
    ensures { IfOk result (λ s. Pairs (ShowsSides (variables_in v.now)) s (tests ts.now)) }
{
    let mut out = Items::new(alloc);
    for test in ts.as_slice() {
        out.push(side(alloc, v, test)?)?;
    }
    Ok(out)
}

fn loop_info(
    alloc: Global,
    v: &Variables,
    item: u32,
    var: u32,
    lo: &Expr,
    rel: Rel,
    hi: &Expr,
) -> Result<LoopInfo, OutOfMemory>
    requires { IsUsable v.now }
    ensures { IfOk result (λ i. (x : List ℕ) → ShowsBounds (variables_in v.now) item var (record { name = x; lo = expr lo.now; rel = rel; hi = expr hi.now }) i) }
{
    let (lo, hi) = two_sums(alloc, v, lo, hi)?;
    Ok(LoopInfo {
        item,
        var,
        lo,
        rel,
        hi,
    })
}

fn test_info(
    alloc: Global,
    v: &Variables,
    item: u32,
    first: bool,
    ts: &Tests,
) -> Result<TestInfo, OutOfMemory>
    requires { IsUsable v.now }
    ensures { IfOk result (λ i. ShowsCondition (variables_in v.now) item first (tests ts.now) i) }
{
    Ok(TestInfo {
        item,
        first_branch: first,
        sides: sides(alloc, v, ts)?,
    })
}

/// The loops around a place, the outermost first.
pub fn loops_at(alloc: Global, params: &[Param], outers: &Outers<'_>) -> Result<Loops, OutOfMemory>
    ensures { IfOk result (λ ls. Pairs (ShowsLoop (ints_in (map param params.now))) ls (loops_around (outers_in outers.now))) }
{
    match outers {
        Outers::Outside => Ok(Items::new(alloc)),
        Outers::InLoop(item, var, _, lo, rel, hi, outer) => {
            let mut list = loops_at(alloc, params, outer)?;
            let v = variables_at(alloc, params, outer)?;
            list.push(loop_info(alloc, &v, *item, *var, lo, *rel, hi)?)?;
            Ok(list)
        }
        Outers::InBranch(_, _, _, outer) => loops_at(alloc, params, outer),
    }
}

/// The conditions around a place, the outermost first.
pub fn tests_at(
    alloc: Global,
    params: &[Param],
    outers: &Outers<'_>,
) -> Result<SiteTests, OutOfMemory>
    ensures { IfOk result (λ ts. Pairs (ShowsTests (ints_in (map param params.now))) ts (tests_around (outers_in outers.now))) }
{
    match outers {
        Outers::Outside => Ok(Items::new(alloc)),
        Outers::InLoop(_, _, _, _, _, _, outer) => tests_at(alloc, params, outer),
        Outers::InBranch(item, first, ts, outer) => {
            let mut list = tests_at(alloc, params, outer)?;
            let v = variables_at(alloc, params, outer)?;
            list.push(test_info(alloc, &v, *item, *first, ts)?)?;
            Ok(list)
        }
    }
}
