//! S16: a shift amount that is no literal below 64, or a divisor that is no literal above 0.

ghost use Rattle.std.specs.Prelude.{◌≡◌, not};
ghost use Rattle.c_tree.specs.Trees.{expr, exprs, stmt, tests};
ghost use Rattle.acceptance.specs.Printed as printed;

use c_tree::{BinOp, Expr, Exprs, Stmt, Tests};

fn is_shift_amount(e: &Expr) -> bool
    ensures { result ≡ printed.is_shift_amount (expr e.now) }
{
    match e {
        Expr::Lit(n) => *n < 64,
        _ => false,
    }
}

fn is_divisor(e: &Expr) -> bool
    ensures { result ≡ printed.is_divisor (expr e.now) }
{
    match e {
        Expr::Lit(n) => 0 < *n,
        _ => false,
    }
}

fn has_good_side(op: BinOp, b: &Expr) -> bool
    ensures { result ≡ printed.has_good_side op (expr b.now) }
{
    match op {
        BinOp::Shl => is_shift_amount(b),
        BinOp::Shr => is_shift_amount(b),
        BinOp::Div => is_divisor(b),
        BinOp::Rem => is_divisor(b),
        _ => true,
    }
}

#[cycle(literals)]
fn literals_fit(e: &Expr) -> bool
    ensures { result ≡ printed.literals_fit (expr e.now) }
{
    match e {
        Expr::Lit(_) => true,
        Expr::Var(_) => true,
        Expr::Cell(_, at) => all_literals_fit(at),
        Expr::Un(_, a) => literals_fit(a),
        Expr::Bin(op, a, b) => has_good_side(*op, b) && literals_fit(a) && literals_fit(b),
        Expr::Cast(a) => literals_fit(a),
        Expr::Test(_, a, b) => literals_fit(a) && literals_fit(b),
        Expr::Min(a, b) => literals_fit(a) && literals_fit(b),
        Expr::Max(a, b) => literals_fit(a) && literals_fit(b),
        Expr::Least(a, b) => literals_fit(a) && literals_fit(b),
        Expr::Greatest(a, b) => literals_fit(a) && literals_fit(b),
        Expr::Widen(a) => literals_fit(a),
        Expr::Big(_, _) => true,
    }
}

#[cycle(literals)]
fn all_literals_fit(es: &Exprs) -> bool
    ensures { result ≡ printed.all_literals_fit (exprs es.now) }
{
    for e in es.as_slice() {
        if !literals_fit(e) {
            return false;
        }
    }
    true
}

fn tests_fit(ts: &Tests) -> bool
    ensures { result ≡ printed.tests_fit printed.literals_fit (tests ts.now) }
{
    for (_, a, b) in ts.as_slice() {
        if !(literals_fit(a) && literals_fit(b)) {
            return false;
        }
    }
    true
}

/// Whether an item has a shift amount that is no literal below 64 or a divisor that is no literal above 0.
pub fn has_bad_literal(s: &Stmt) -> bool
    ensures { result ≡ not (printed.exprs_fit printed.literals_fit (stmt s.now)) }
{
    match s {
        Stmt::For { lo, hi, .. } => !(literals_fit(lo) && literals_fit(hi)),
        Stmt::If { tests, .. } => !tests_fit(tests),
        Stmt::Assign { target, value, .. } => !(literals_fit(target) && literals_fit(value)),
        Stmt::Table { length, .. } => !literals_fit(length),
        Stmt::Begin => false,
        Stmt::Check { extent, .. } => !literals_fit(extent),
        Stmt::Verdict => false,
    }
}
