//! Whether the checks of a printed text are of its arrays.

ghost use Rattle.std.specs.Prelude.{◌≡◌};
ghost use Rattle.c_tree.specs.Grammar.Units as grammar;
ghost use Rattle.c_tree.specs.Trees as t;

use c_tree::Stmt;

/// Each check of the statement is of one of so many arrays.
#[cycle(checks)]
fn checks_below(arrays: usize, stmt: &Stmt) -> bool
    ensures { result ≡ grammar.checks_below arrays (t.stmt stmt.now) }
{
    match stmt {
        Stmt::For { body, .. } => all_checks_below(arrays, body.as_slice()),
        Stmt::If { then, other, .. } => {
            all_checks_below(arrays, then.as_slice()) && all_checks_below(arrays, other.as_slice())
        }
        Stmt::Check { array, .. } => (*array as usize) < arrays,
        Stmt::Assign { .. } | Stmt::Table { .. } | Stmt::Begin | Stmt::Verdict => true,
    }
}

/// Each check of the statements is of one of so many arrays.
#[cycle(checks)]
pub fn all_checks_below(arrays: usize, stmts: &[Stmt]) -> bool
    ensures { result ≡ grammar.all_checks_below arrays (t.stmts stmts.now) }
{
    for stmt in stmts {
        if !checks_below(arrays, stmt) {
            return false;
        }
    }
    true
}
