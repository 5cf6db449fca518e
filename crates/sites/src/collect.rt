//! The sites of an array, collected in text and access order.

ghost use Rattle.std.specs.Prelude.{◌≡◌, IfOk, List, OnOk, [], map, suc, true, ℕ, ◌++◌, ◌∷◌};
ghost use Rattle.c_tree.specs.Names.{ints_in, words};
ghost use Rattle.c_tree.specs.Trees.{expr, exprs, param, stmt, stmts};
ghost use Rattle.sites.specs.Collected.{Grows, Reaches, Walked, WalkedAll, kept, one_site, shown};
ghost use Rattle.c_tree.specs.Plain.{assign};
ghost use Rattle.sites.specs.Infos.{Shows};
ghost use Rattle.sites.specs.Outers.{outers_in};
ghost use Rattle.sites.specs.Sites.{accesses_of, old_cell, reads_in, reads_in_all};

use crate::around::{loops_at, tests_at};
use crate::info::{SiteInfo, SiteList};
use crate::numbers::after;
use crate::outers::Outers;
use crate::subscripts::subscripts_at;
use crate::variables::variables_at;
use c_tree::{BinOp, Expr, Exprs, Name, NameList, OutOfMemory, Site, Stmt, Stmts, Unit};
use std::alloc::Global;

/// An array of a unit, and the names of all its arrays.
#[derive(Clone, Copy)]
pub struct Query<'a> {
    pub unit: &'a Unit,
    pub arrays: &'a NameList,
    pub array: &'a Name,
}

/// A statement with what stands around it.
#[derive(Clone, Copy)]
pub struct Place<'q, 'a> {
    pub query: &'q Query<'q>,
    pub outers: &'a Outers<'a>,
    pub statement: u32,
}

/// The position of the next access in its statement, and the number of its site.
#[derive(Clone, Copy)]
pub struct Count {
    pub position: u32,
    pub site: u32,
}

/// The numbers of the next item, of the next loop's variable, and of the next site.
#[derive(Clone, Copy)]
pub struct Next {
    pub item: u32,
    pub variable: u32,
    pub site: u32,
}

fn info(
    alloc: Global,
    place: &Place<'_, '_>,
    at: &Exprs,
    write: bool,
    count: Count,
) -> Result<SiteInfo, OutOfMemory>
    ensures { IfOk result (λ i. (x : List ℕ) → shown place.now.query.now i (one_site place.now count x (exprs at.now) write)) }
{
    let params = place.query.unit.params.as_slice();
    let v = variables_at(alloc, params, place.outers)?;
    let subscripts = subscripts_at(alloc, place.query.arrays.as_slice(), &v, at)?;
    let loops = loops_at(alloc, params, place.outers)?;
    let tests = tests_at(alloc, params, place.outers)?;
    Ok(SiteInfo {
        site: Site(count.site),
        statement: place.statement,
        position: count.position,
        write,
        loops,
        tests,
        subscripts,
    })
}

/// Adds the site of an access, where it is one of the array.
fn note(
    alloc: Global,
    place: &Place<'_, '_>,
    x: &Name,
    at: &Exprs,
    write: bool,
    count: Count,
    out: &mut SiteList,
) -> Result<(), OutOfMemory>
    ensures { OnOk result (Grows place.now.query.now out.old out.new (kept place.now.query.now (one_site place.now count x.now.bytes (exprs at.now) write ∷ []))) }
{
    if place.query.array.same(x) {
        out.push(info(alloc, place, at, write, count)?)?;
        Ok(())
    } else {
        Ok(())
    }
}

fn counted(count: Count) -> Result<Count, OutOfMemory>
    ensures { IfOk result (λ r. (r.position ≡ suc count.position) × (r.site ≡ suc count.site)) }
{
    let position = after(count.position)?;
    let site = after(count.site)?;
    Ok(Count { position, site })
}

/// One access.
fn reach(
    alloc: Global,
    place: &Place<'_, '_>,
    x: &Name,
    at: &Exprs,
    write: bool,
    count: Count,
    out: &mut SiteList,
) -> Result<Count, OutOfMemory>
    ensures { IfOk result (λ r. Reaches place.now count (record { name = x.now.bytes; at = exprs at.now; writes = write } ∷ []) out.old out.new r) }
{
    note(alloc, place, x, at, write, count, out)?;
    counted(count)
}

#[cycle(reads)]
fn reads(
    alloc: Global,
    place: &Place<'_, '_>,
    e: &Expr,
    count: Count,
    out: &mut SiteList,
) -> Result<Count, OutOfMemory>
    ensures { IfOk result (λ r. Reaches place.now count (reads_in (expr e.now)) out.old out.new r) }
{
    match e {
        Expr::Cell(x, at) => {
            let next = reads_all(alloc, place, at, count, out)?;
            reach(alloc, place, x, at, false, next, out)
        }
        Expr::Un(_, a) => reads(alloc, place, a, count, out),
        Expr::Bin(_, a, b) => {
            let next = reads(alloc, place, a, count, out)?;
            reads(alloc, place, b, next, out)
        }
        Expr::Cast(a) => reads(alloc, place, a, count, out),
        Expr::Test(_, a, b) => {
            let next = reads(alloc, place, a, count, out)?;
            reads(alloc, place, b, next, out)
        }
        Expr::Min(a, b) => {
            let next = reads(alloc, place, a, count, out)?;
            reads(alloc, place, b, next, out)
        }
        Expr::Max(a, b) => {
            let next = reads(alloc, place, a, count, out)?;
            reads(alloc, place, b, next, out)
        }
        Expr::Widen(a) => reads(alloc, place, a, count, out),
        _ => Ok(count),
    }
}

#[cycle(reads)]
fn reads_all(
    alloc: Global,
    place: &Place<'_, '_>,
    es: &Exprs,
    count: Count,
    out: &mut SiteList,
) -> Result<Count, OutOfMemory>
    ensures { IfOk result (λ r. Reaches place.now count (reads_in_all (exprs es.now)) out.old out.new r) }
{
    let mut next = count;
    for e in es.as_slice() {
        next = reads(alloc, place, e, next, out)?;
    }
    Ok(next)
}

fn old(
    alloc: Global,
    place: &Place<'_, '_>,
    op: Option<BinOp>,
    x: &Name,
    at: &Exprs,
    count: Count,
    out: &mut SiteList,
) -> Result<Count, OutOfMemory>
    ensures { IfOk result (λ r. Reaches place.now count (old_cell op x.now.bytes (exprs at.now)) out.old out.new r) }
{
    match op {
        Some(_) => reach(alloc, place, x, at, false, count, out),
        None => Ok(count),
    }
}

/// The reads of the right side, and the write.
fn set(
    alloc: Global,
    place: &Place<'_, '_>,
    x: &Name,
    at: &Exprs,
    value: &Expr,
    count: Count,
    out: &mut SiteList,
) -> Result<Count, OutOfMemory>
    ensures { IfOk result (λ r. Reaches place.now count (reads_in (expr value.now) ++ record { name = x.now.bytes; at = exprs at.now; writes = true } ∷ []) out.old out.new r) }
{
    let next = reads(alloc, place, value, count, out)?;
    reach(alloc, place, x, at, true, next, out)
}

/// The old cell of a compound assignment, and what follows it.
fn set_from(
    alloc: Global,
    place: &Place<'_, '_>,
    op: Option<BinOp>,
    x: &Name,
    at: &Exprs,
    value: &Expr,
    count: Count,
    out: &mut SiteList,
) -> Result<Count, OutOfMemory>
    ensures { IfOk result (λ r. Reaches place.now count
        (old_cell op x.now.bytes (exprs at.now) ++ (reads_in (expr value.now) ++ record { name = x.now.bytes; at = exprs at.now; writes = true } ∷ [])) out.old out.new r) }
{
    let next = old(alloc, place, op, x, at, count, out)?;
    set(alloc, place, x, at, value, next, out)
}

fn accesses(
    alloc: Global,
    place: &Place<'_, '_>,
    target: &Expr,
    op: Option<BinOp>,
    value: &Expr,
    count: Count,
    out: &mut SiteList,
) -> Result<Count, OutOfMemory>
    ensures { IfOk result (λ r. Reaches place.now count (accesses_of (expr target.now) op (expr value.now)) out.old out.new r) }
{
    match target {
        Expr::Cell(x, at) => {
            let next = reads_all(alloc, place, at, count, out)?;
            set_from(alloc, place, op, x, at, value, next, out)
        }
        _ => reads(alloc, place, value, count, out),
    }
}

fn next_item(next: Next) -> Result<Next, OutOfMemory>
    ensures { IfOk result (λ r. (r.item ≡ suc next.item) × ((r.variable ≡ next.variable) × (r.site ≡ next.site))) }
{
    Ok(Next {
        item: after(next.item)?,
        variable: next.variable,
        site: next.site,
    })
}

fn next_loop(next: Next) -> Result<Next, OutOfMemory>
    ensures { IfOk result (λ r. (r.item ≡ suc next.item) × ((r.variable ≡ suc next.variable) × (r.site ≡ next.site))) }
{
    let item = after(next.item)?;
    let variable = after(next.variable)?;
    Ok(Next {
        item,
        variable,
        site: next.site,
    })
}

fn assignment(
    alloc: Global,
    query: &Query<'_>,
    outers: &Outers<'_>,
    target: &Expr,
    op: Option<BinOp>,
    value: &Expr,
    next: Next,
    out: &mut SiteList,
) -> Result<Next, OutOfMemory>
    ensures { IfOk result (λ r. Walked query.now (outers_in outers.now) (assign (expr target.now) op (expr value.now)) next out.old out.new r) }
{
    let place = Place {
        query,
        outers,
        statement: next.item,
    };
    let first = Count {
        position: 0,
        site: next.site,
    };
    let count = accesses(alloc, &place, target, op, value, first, out)?;
    let item = after(next.item)?;
    Ok(Next {
        item,
        variable: next.variable,
        site: count.site,
    })
}

#[cycle(walk)]
fn walk<'q, 'x>(
    alloc: Global,
    q: &'q Query<'q>,
    outers: &'x Outers<'x>,
    s: &'x Stmt,
    next: Next,
    out: &mut SiteList,
) -> Result<Next, OutOfMemory>
    ensures { IfOk result (λ r. Walked q.now (outers_in outers.now) (stmt s.now) next out.old out.new r) }
{
    match s {
        Stmt::For {
            var,
            lo,
            rel,
            hi,
            body,
        } => {
            let within = next_loop(next)?;
            let inner = Outers::InLoop(next.item, next.variable, var, lo, *rel, hi, outers);
            walk_all(alloc, q, &inner, body, within, out)
        }
        Stmt::If { tests, then, other } => {
            let within = next_item(next)?;
            let first = Outers::InBranch(next.item, true, tests, outers);
            let between = walk_all(alloc, q, &first, then, within, out)?;
            let second = Outers::InBranch(next.item, false, tests, outers);
            walk_all(alloc, q, &second, other, between, out)
        }
        Stmt::Assign { target, op, value } => {
            assignment(alloc, q, outers, target, *op, value, next, out)
        }
        Stmt::Table { .. } => next_item(next),
        Stmt::Begin => Ok(next),
        Stmt::Check { .. } => next_item(next),
        Stmt::Verdict => next_item(next),
    }
}

/// Adds the sites of a list of statements to the list, with the numbers that follow.
#[cycle(walk)]
pub fn walk_all<'q, 'x>(
    alloc: Global,
    q: &'q Query<'q>,
    outers: &'x Outers<'x>,
    body: &'x Stmts,
    next: Next,
    out: &mut SiteList,
) -> Result<Next, OutOfMemory>
    ensures { IfOk result (λ r. WalkedAll q.now (outers_in outers.now) (stmts body.now) next out.old out.new r) }
{
    let mut at = next;
    for s in body.as_slice() {
        at = walk(alloc, q, outers, s, at, out)?;
    }
    Ok(at)
}
