//! How many assignments, reads and loaded words a source has.

ghost use Rattle.std.specs.Prelude.{◌≡◌, ◌+◌, ◌<◌, ◌^◌};
ghost use Rattle.c_tree.specs.Trees.{expr, exprs, stmt, stmts};
ghost use Rattle.c_tree.specs.Instances.{sites, sites_all};
ghost use Rattle.instrumentation.specs.Body.{reads_in, registers, registers_all};
ghost use Rattle.instrumentation.specs.Subscripts.{indices_in};

use c_tree::{Expr, Exprs, Stmt, Stmts};

/// The number of assignments in a statement.
#[cycle(count_sites)]
pub fn count_sites(s: &Stmt) -> usize
    requires { sites (stmt s.now) < 2 ^ 64 }
    ensures { result ≡ sites (stmt s.now) }
{
    match s {
        Stmt::For { body, .. } => count_sites_of_all(body),
        Stmt::If { then, other, .. } => count_sites_of_all(then) + count_sites_of_all(other),
        Stmt::Assign { .. } => 1,
        Stmt::Table { .. } | Stmt::Begin | Stmt::Check { .. } | Stmt::Verdict => 0,
    }
}

/// The number of assignments in a list.
#[cycle(count_sites)]
pub fn count_sites_of_all(body: &Stmts) -> usize
    requires { sites_all (stmts body.now) < 2 ^ 64 }
    ensures { result ≡ sites_all (stmts body.now) }
{
    let mut count = 0;
    for s in body.as_slice() {
        count += count_sites(s);
    }
    count
}

/// The number of subscripts that are cells.
fn count_indices(at: &Exprs) -> u64
    requires { indices_in (exprs at.now) < 2 ^ 64 }
    ensures { result ≡ indices_in (exprs at.now) }
{
    let mut count = 0;
    for e in at.as_slice() {
        if let Expr::Cell(_, _) = e {
            count += 1;
        }
    }
    count
}

/// The number of cells that an expression reads.
fn count_reads(e: &Expr) -> u64
    requires { reads_in (expr e.now) < 2 ^ 64 }
    ensures { result ≡ reads_in (expr e.now) }
{
    match e {
        Expr::Cell(_, at) => count_indices(at) + 1,
        Expr::Un(_, a) | Expr::Cast(a) => count_reads(a),
        Expr::Bin(_, a, b) | Expr::Test(_, a, b) | Expr::Min(a, b) | Expr::Max(a, b) => {
            count_reads(a) + count_reads(b)
        }
        Expr::Lit(_)
        | Expr::Var(_)
        | Expr::Least(_, _)
        | Expr::Greatest(_, _)
        | Expr::Widen(_)
        | Expr::Big(_, _) => 0,
    }
}

/// The greatest number of words that the loads of one assignment in a statement need.
#[cycle(count_registers)]
fn count_registers(s: &Stmt) -> u64
    requires { registers (stmt s.now) < 2 ^ 64 }
    ensures { result ≡ registers (stmt s.now) }
{
    match s {
        Stmt::For { body, .. } => count_registers_of_all(body),
        Stmt::If { then, other, .. } => {
            count_registers_of_all(then).max(count_registers_of_all(other))
        }
        Stmt::Assign {
            op: None,
            value,
            ..
        } => count_reads(value),
        Stmt::Assign { target, value, .. } => count_reads(target) + count_reads(value),
        Stmt::Table { .. } | Stmt::Begin | Stmt::Check { .. } | Stmt::Verdict => 0,
    }
}

/// The greatest number of words that the loads of one assignment in a list need.
#[cycle(count_registers)]
pub fn count_registers_of_all(body: &Stmts) -> u64
    requires { registers_all (stmts body.now) < 2 ^ 64 }
    ensures { result ≡ registers_all (stmts body.now) }
{
    let mut most = 0;
    for s in body.as_slice() {
        most = count_registers(s).max(most);
    }
    most
}
