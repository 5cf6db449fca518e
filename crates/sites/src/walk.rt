//! How many accesses of an array meet a test.

ghost use Rattle.std.specs.Prelude.{◌≡◌, ◌-◌, ◌^◌, min};
ghost use Rattle.c_tree.specs.Trees.{expr, exprs, stmt, stmts};
ghost use Rattle.sites.specs.Found as spec;
ghost use Rattle.sites.specs.Shown.{frames_in, meets};

use crate::frames::Frames;
use crate::question::{Question, met};
use c_tree::{BinOp, Expr, Exprs, Name, Stmt, Stmts};

#[cycle(expressions)]
fn found_in(q: &Question<'_>, frames: &Frames<'_>, e: &Expr) -> u32
    ensures { result ≡ min (spec.found_in (meets q.now (frames_in frames.now)) (expr e.now)) (2 ^ 32 - 1) }
{
    match e {
        Expr::Lit(_) => 0,
        Expr::Var(_) => 0,
        Expr::Cell(x, at) => {
            found_in_all(q, frames, at).saturating_add(met(q, frames, x, at, false))
        }
        Expr::Un(_, a) => found_in(q, frames, a),
        Expr::Bin(_, a, b) => found_in(q, frames, a).saturating_add(found_in(q, frames, b)),
        Expr::Cast(a) => found_in(q, frames, a),
        Expr::Test(_, a, b) => found_in(q, frames, a).saturating_add(found_in(q, frames, b)),
        Expr::Min(a, b) => found_in(q, frames, a).saturating_add(found_in(q, frames, b)),
        Expr::Max(a, b) => found_in(q, frames, a).saturating_add(found_in(q, frames, b)),
        Expr::Least(_, _) => 0,
        Expr::Greatest(_, _) => 0,
        Expr::Widen(a) => found_in(q, frames, a),
        Expr::Big(_, _) => 0,
    }
}

#[cycle(expressions)]
fn found_in_all(q: &Question<'_>, frames: &Frames<'_>, es: &Exprs) -> u32
    ensures { result ≡ min (spec.found_in_all (meets q.now (frames_in frames.now)) (exprs es.now)) (2 ^ 32 - 1) }
{
    let mut sum: u32 = 0;
    for e in es.as_slice() {
        sum = sum.saturating_add(found_in(q, frames, e));
    }
    sum
}

fn found_old(q: &Question<'_>, frames: &Frames<'_>, op: Option<BinOp>, x: &Name, at: &Exprs) -> u32
    ensures { result ≡ spec.found_old (meets q.now (frames_in frames.now)) op x.now.bytes (exprs at.now) }
{
    match op {
        Some(_) => met(q, frames, x, at, false),
        None => 0,
    }
}

fn found_at(
    q: &Question<'_>,
    frames: &Frames<'_>,
    target: &Expr,
    op: Option<BinOp>,
    value: &Expr,
) -> u32
    ensures { result ≡ min (spec.found_at (meets q.now (frames_in frames.now)) (expr target.now) op (expr value.now)) (2 ^ 32 - 1) }
{
    match target {
        Expr::Cell(x, at) => {
            let read = found_in(q, frames, value).saturating_add(met(q, frames, x, at, true));
            let old = found_old(q, frames, op, x, at).saturating_add(read);
            found_in_all(q, frames, at).saturating_add(old)
        }
        _ => found_in(q, frames, value),
    }
}

#[cycle(statements)]
fn found<'x>(q: &Question<'_>, frames: &'x Frames<'x>, s: &'x Stmt) -> u32
    ensures { result ≡ min (spec.found (meets q.now) (stmt s.now) (frames_in frames.now)) (2 ^ 32 - 1) }
{
    match s {
        Stmt::For {
            var,
            lo,
            rel,
            hi,
            body,
        } => {
            let inner = Frames::InLoop(var, lo, *rel, hi, frames);
            found_all(q, &inner, body)
        }
        Stmt::If { tests, then, other } => {
            let first = Frames::InBranch(true, tests, frames);
            let second = Frames::InBranch(false, tests, frames);
            found_all(q, &first, then).saturating_add(found_all(q, &second, other))
        }
        Stmt::Assign { target, op, value } => found_at(q, frames, target, *op, value),
        Stmt::Table { .. } => 0,
        Stmt::Begin => 0,
        Stmt::Check { .. } => 0,
        Stmt::Verdict => 0,
    }
}

/// How many accesses in a list of statements meet the test, and 2^32 - 1 where there are more.
#[cycle(statements)]
pub fn found_all<'x>(q: &Question<'_>, frames: &'x Frames<'x>, body: &'x Stmts) -> u32
    ensures { result ≡ min (spec.found_all (meets q.now) (stmts body.now) (frames_in frames.now)) (2 ^ 32 - 1) }
{
    let mut sum: u32 = 0;
    for s in body.as_slice() {
        sum = sum.saturating_add(found(q, frames, s));
    }
    sum
}
