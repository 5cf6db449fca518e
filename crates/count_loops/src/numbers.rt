//! Of which assignment each site is.

ghost use Rattle.std.specs.Prelude.{◌≡◌, ◌+◌, ◌++◌, ◌<◌, ◌^◌, IfOk, OnOk, slice_index_or};
ghost use Rattle.c_tree.specs.Instances as instances;
ghost use Rattle.c_tree.specs.Plain.{Word, PlainExprs};
ghost use Rattle.c_tree.specs.Trees.{expr, exprs, stmt, stmts};
ghost use Rattle.count_loops.specs.Assignments.{repeated, assignments, assignments_all, assignment_of};
ghost use Rattle.sites.specs.Sites.{reads_in, reads_in_all, old_cell, accesses_of};

use c_tree::{BinOp, Expr, OutOfMemory, Stmt, Stmts};
use sqlite_items::Items;
use std::alloc::Global;

/// Adds the number once for each cell that an expression reads.
#[cycle(add_reads)]
fn add_reads(e: &Expr, number: usize, out: &mut Items<usize>) -> Result<(), OutOfMemory>
    ensures { OnOk result (out.new ≡ out.old ++ repeated number (reads_in (expr e.now))) }
{
    match e {
        Expr::Cell(_, at) => {
            add_reads_of_all(at, number, out)?;
            out.push(number)?;
            Ok(())
        }
        Expr::Un(_, a) | Expr::Cast(a) | Expr::Widen(a) => add_reads(a, number, out),
        Expr::Bin(_, a, b) | Expr::Test(_, a, b) | Expr::Min(a, b) | Expr::Max(a, b) => {
            add_reads(a, number, out)?;
            add_reads(b, number, out)
        }
        Expr::Lit(_) | Expr::Var(_) | Expr::Least(_, _) | Expr::Greatest(_, _) | Expr::Big(_, _) =>
            Ok(()),
    }
}

/// Adds the number once for each cell that a list of expressions reads.
#[cycle(add_reads)]
fn add_reads_of_all(
    list: &Items<Expr>,
    number: usize,
    out: &mut Items<usize>,
) -> Result<(), OutOfMemory>
    ensures { OnOk result (out.new ≡ out.old ++ repeated number (reads_in_all (exprs list.now))) }
{
    for e in list.as_slice() {
        add_reads(e, number, out)?;
    }
    Ok(())
}

/// Adds the number where an assignment reads the old cell of its target.
fn add_old(op: Option<BinOp>, number: usize, out: &mut Items<usize>) -> Result<(), OutOfMemory>
    ensures { OnOk result ((x : Word) (at : PlainExprs) →
        out.new ≡ out.old ++ repeated number (old_cell op x at)) }
{
    match op {
        None => Ok(()),
        Some(_) => {
            out.push(number)?;
            Ok(())
        }
    }
}

/// Adds the number once for each access of an assignment.
fn add_accesses(
    target: &Expr,
    op: Option<BinOp>,
    value: &Expr,
    number: usize,
    out: &mut Items<usize>,
) -> Result<(), OutOfMemory>
    ensures { OnOk result (out.new
        ≡ out.old ++ repeated number (accesses_of (expr target.now) op (expr value.now))) }
{
    match target {
        Expr::Cell(_, at) => {
            add_reads_of_all(at, number, out)?;
            add_old(op, number, out)?;
            add_reads(value, number, out)?;
            out.push(number)?;
            Ok(())
        }
        _ => add_reads(value, number, out),
    }
}

/// Adds the number of its assignment for each access in a statement, whose first assignment has
/// the number `next`.
#[cycle(add_numbers)]
fn add_numbers(s: &Stmt, next: &mut usize, out: &mut Items<usize>) -> Result<(), OutOfMemory>
    requires { next.old + instances.sites (stmt s.now) < 2 ^ 64 }
    ensures numbers { OnOk result (out.new ≡ out.old ++ assignments (stmt s.now) next.old) }
    ensures following { OnOk result (next.new ≡ next.old + instances.sites (stmt s.now)) }
{
    match s {
        Stmt::For { body, .. } => add_all_numbers(body, next, out),
        Stmt::If { then, other, .. } => {
            add_all_numbers(then, next, out)?;
            add_all_numbers(other, next, out)
        }
        Stmt::Assign { target, op, value } => {
            add_accesses(target, *op, value, *next, out)?;
            *next += 1;
            Ok(())
        }
        Stmt::Table { .. } | Stmt::Begin | Stmt::Check { .. } | Stmt::Verdict => Ok(()),
    }
}

/// Adds the number of its assignment for each access in a list.
#[cycle(add_numbers)]
fn add_all_numbers(
    body: &Stmts,
    next: &mut usize,
    out: &mut Items<usize>,
) -> Result<(), OutOfMemory>
    requires { next.old + instances.sites_all (stmts body.now) < 2 ^ 64 }
    ensures numbers { OnOk result (out.new ≡ out.old ++ assignments_all (stmts body.now) next.old) }
    ensures following { OnOk result (next.new ≡ next.old + instances.sites_all (stmts body.now)) }
{
    for s in body.as_slice() {
        add_numbers(s, next, out)?;
    }
    Ok(())
}

/// The number of the assignment of a site, 0 where there is no such site.
pub fn assignment(alloc: Global, body: &Stmts, site: usize) -> Result<usize, OutOfMemory>
    requires { instances.sites_all (stmts body.now) < 2 ^ 64 }
    ensures { IfOk result (λ number. number ≡ assignment_of (stmts body.now) site) }
{
    let mut numbers = Items::new(alloc);
    let mut next = 0;
    add_all_numbers(body, &mut next, &mut numbers)?;
    match numbers.as_slice().get(site) {
        Some(number) => Ok(*number),
        None => Ok(0),
    }
}
