//! Single statements.

ghost use Rattle.std.specs.Prelude.{◌≡◌, ◌∷◌, [], IfOk, map};
ghost use Rattle.c_tree.specs.Plain.{assign as assigns, check as checks, loop as loops, var as variable};
ghost use Rattle.c_tree.specs.Trees.{expr, stmt, stmts};
ghost use Rattle.instrumentation.specs.Body.{full};
ghost use Rattle.instrumentation.specs.Passes as passes;

use c_tree::{BinOp, Expr, Name, OutOfMemory, Rel, Stmt, Stmts};
use sqlite_items::Items;
use std::alloc::Global;

/// The assignment of a value to a word.
pub fn assign(target: Name, op: Option<BinOp>, value: Expr) -> Stmt
    ensures { stmt result ≡ assigns (variable target.bytes) op (expr value) }
{
    Stmt::Assign {
        target: Expr::Var(target),
        op,
        value,
    }
}

/// The assignment of a number to a word.
pub fn set_word(word: Name, value: u64) -> Stmt
    ensures { stmt result ≡ passes.set_word word.bytes value }
{
    assign(word, None, Expr::Lit(value))
}

/// The loop over `var` from `lo` on while `var rel hi`.
pub fn repeat(var: Name, lo: Expr, rel: Rel, hi: Expr, body: Stmts) -> Stmt
    ensures { stmt result ≡ loops var.bytes (expr lo) rel (expr hi) (stmts body) }
{
    Stmt::For {
        var,
        lo,
        rel,
        hi,
        body,
    }
}

/// The number of an array, as checks have it.
pub fn checked_array(array: u64) -> Result<u32, OutOfMemory>
    ensures { IfOk result (λ made. made ≡ array) }
{
    if array < 4294967296 {
        Ok(array as u32)
    } else {
        Err(OutOfMemory)
    }
}

/// The check that a word is below an extent of an array.
pub fn check(alloc: Global, value: Name, extent: &Expr, array: u32) -> Result<Stmt, OutOfMemory>
    ensures { IfOk result (λ made. stmt made ≡ checks value.bytes (expr extent.now) array) }
{
    let extent = extent.copy(alloc)?;
    Ok(Stmt::Check {
        value,
        extent,
        array,
    })
}

/// A list of one statement.
pub fn only(alloc: Global, s: Stmt) -> Result<Stmts, OutOfMemory>
    ensures { IfOk result (λ made. map stmt made ≡ stmt s ∷ []) }
{
    let mut list = Items::new(alloc);
    list.push(s)?;
    Ok(list)
}

/// What an assignment gives its target.
pub fn full_value(
    alloc: Global,
    target: &Expr,
    op: Option<BinOp>,
    value: &Expr,
) -> Result<Expr, OutOfMemory>
    ensures { IfOk result (λ made. expr made ≡ full (expr target.now) op (expr value.now)) }
{
    match op {
        None => value.copy(alloc),
        Some(op) => {
            let old = Box::new(alloc, target.copy(alloc)?)?;
            Ok(Expr::Bin(op, old, Box::new(alloc, value.copy(alloc)?)?))
        }
    }
}
