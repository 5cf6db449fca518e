//! S8: the counts that have a limit.

ghost use Rattle.std.specs.Prelude.{◌≡◌, length, ◌+◌, min, ◌-◌, ◌^◌};
ghost use Rattle.c_tree.specs.Instances.{sites, sites_all};
ghost use Rattle.c_tree.specs.Trees.{expr, exprs, stmt, stmts};
ghost use Rattle.acceptance.specs.Limits as limits;
ghost use Rattle.scopes.specs.Scopes.{declared_in, loops_in, scope_in};
ghost use Rattle.unit_checks.specs.Counts.{saturated};

use c_tree::{BinOp, Expr, Exprs, Param, Stmt, Stmts};
use scopes::{Around, Declared, Scope};

fn plus(a: u64, b: u64) -> u64
    ensures { result ≡ saturated (a + b) }
{
    a.saturating_add(b)
}

fn loops_around(around: &Around<'_>) -> u64
    ensures { result ≡ saturated (length (loops_in around.now)) }
{
    match around {
        Around::Nothing => 0,
        Around::Within(_, _, _, _, _, outer) => plus(loops_around(outer), 1),
    }
}

/// How deep a loop stands, itself with those around it; 0 for another item.
pub fn loop_depth(sc: &Scope<'_, '_>, s: &Stmt) -> u64
    ensures { result ≡ saturated (limits.depth (record { stmt = stmt s.now; loops = (scope_in sc.now).loops; tables = (scope_in sc.now).tables })) }
{
    match s {
        Stmt::For { .. } => plus(loops_around(sc.around), 1),
        _ => 0,
    }
}

#[cycle(cells)]
fn cells_in(e: &Expr) -> u64
    ensures { result ≡ saturated (limits.cells_in (expr e.now)) }
{
    match e {
        Expr::Lit(_) => 0,
        Expr::Var(_) => 0,
        Expr::Cell(_, at) => plus(cells_in_all(at), 1),
        Expr::Un(_, a) => cells_in(a),
        Expr::Bin(_, a, b) => plus(cells_in(a), cells_in(b)),
        Expr::Cast(a) => cells_in(a),
        Expr::Test(_, a, b) => plus(cells_in(a), cells_in(b)),
        Expr::Min(a, b) => plus(cells_in(a), cells_in(b)),
        Expr::Max(a, b) => plus(cells_in(a), cells_in(b)),
        Expr::Least(a, b) => plus(cells_in(a), cells_in(b)),
        Expr::Greatest(a, b) => plus(cells_in(a), cells_in(b)),
        Expr::Widen(a) => cells_in(a),
        Expr::Big(_, _) => 0,
    }
}

#[cycle(cells)]
fn cells_in_all(es: &Exprs) -> u64
    ensures { result ≡ saturated (limits.cells_in_all (exprs es.now)) }
{
    let mut count = 0;
    for e in es.as_slice() {
        count = plus(count, cells_in(e));
    }
    count
}

fn reads_to(target: &Expr, op: Option<BinOp>) -> u64
    ensures { result ≡ saturated (limits.reads_to (expr target.now) op) }
{
    match op {
        Some(_) => cells_in(target),
        None => match target {
            Expr::Cell(_, at) => cells_in_all(at),
            _ => 0,
        },
    }
}

/// How many cells an item reads.
pub fn reads_in(s: &Stmt) -> u64
    ensures { result ≡ saturated (limits.reads_of (stmt s.now)) }
{
    match s {
        Stmt::Assign { target, op, value } => plus(reads_to(target, *op), cells_in(value)),
        _ => 0,
    }
}

#[cycle(sites)]
fn sites_in(s: &Stmt) -> u64
    ensures { result ≡ saturated (sites (stmt s.now)) }
{
    match s {
        Stmt::For { body, .. } => assignments_in(body),
        Stmt::If { then, other, .. } => plus(assignments_in(then), assignments_in(other)),
        Stmt::Assign { .. } => 1,
        Stmt::Table { .. } => 0,
        Stmt::Begin => 0,
        Stmt::Check { .. } => 0,
        Stmt::Verdict => 0,
    }
}

/// How many assignments stand in a list of statements.
#[cycle(sites)]
pub fn assignments_in(body: &Stmts) -> u64
    ensures { result ≡ saturated (sites_all (stmts body.now)) }
{
    let mut count = 0;
    for s in body.as_slice() {
        count = plus(count, sites_in(s));
    }
    count
}

/// How many `int64_t` parameters a unit has.
pub fn int_count(declared: &Declared<'_>) -> u64
    ensures { result ≡ limits.int_count (declared_in declared.now).params }
{
    let mut count = 0;
    for p in declared.unit.params.as_slice() {
        if let Param::Int(_) = p {
            count += 1;
        }
    }
    count
}

/// How many arrays a unit has.
pub fn array_count(declared: &Declared<'_>) -> u64
    ensures { result ≡ limits.array_count (declared_in declared.now).params }
{
    let mut count = 0;
    for p in declared.unit.params.as_slice() {
        if let Param::Array { .. } = p {
            count += 1;
        }
    }
    count
}
