//! Statements on the two tables of an inspected array: that of the current definitions of its
//! cells, and that of the counts.

ghost use Rattle.std.specs.Prelude.{◌≡◌, ◌∷◌, [], IfOk, OnOk, Some, None};
ghost use Rattle.c_tree.specs.Plain.{assign as assigns, bin, cell, table, var, widen};
ghost use Rattle.c_tree.specs.Trees.{expr, exprs, stmt};
ghost use Rattle.instrumentation.specs.Names as names;
ghost use Rattle.instrumentation.specs.Passes as passes;
ghost use Rattle.instrumentation.specs.Tables as tables;
ghost use Rattle.text_parts.specs.Built.{Adds};

use c_tree::{BinOp, Expr, OutOfMemory, Stmt, Stmts};
use std::alloc::Global;
use text_parts::{
    assign, cells_of, count_table, current_table, entry, operation, set_word, use_count, widened,
    written_word,
};

/// A read counts for the current definition of the cell of this number.
pub fn count_current(alloc: Global, array: u64, row: Expr) -> Result<Stmt, OutOfMemory>
    ensures { IfOk result (λ made. stmt made ≡ tables.count_current array (expr row)) }
{
    let current = entry(alloc, current_table(alloc, array)?, row.copy(alloc)?)?;
    let definition = operation(alloc, BinOp::Add, row, current)?;
    let target = entry(alloc, count_table(alloc, array)?, definition)?;
    Ok(Stmt::Assign {
        target,
        op: Some(BinOp::Add),
        value: Expr::Lit(1),
    })
}

/// A write is counted.
pub fn one_more(alloc: Global, array: u64) -> Result<Stmt, OutOfMemory>
    ensures { IfOk result (λ made. stmt made ≡ tables.one_more array) }
{
    let written = written_word(alloc, array)?;
    Ok(assign(written, Some(BinOp::Add), Expr::Lit(1)))
}

/// The number of the next write.
pub fn next_write(alloc: Global, array: u64, extents: &[Expr]) -> Result<Expr, OutOfMemory>
    ensures { IfOk result (λ made. expr made
        ≡ bin BinOp.Add (tables.cells_of (exprs extents.now)) (var (names.written array))) }
{
    let written = Expr::Var(written_word(alloc, array)?);
    operation(alloc, BinOp::Add, cells_of(alloc, extents)?, written)
}

/// The next write is the current definition of the cell of this number.
pub fn set_current(
    alloc: Global,
    array: u64,
    extents: &[Expr],
    row: Expr,
) -> Result<Stmt, OutOfMemory>
    ensures { IfOk result (λ made. stmt made
        ≡ tables.set_current array (exprs extents.now) (expr row)) }
{
    let number = next_write(alloc, array, extents)?;
    let value = operation(alloc, BinOp::Sub, number, row.copy(alloc)?)?;
    let target = entry(alloc, current_table(alloc, array)?, row)?;
    Ok(Stmt::Assign {
        target,
        op: None,
        value,
    })
}

/// No write was made so far.
pub fn none_written(alloc: Global, array: u64) -> Result<Stmt, OutOfMemory>
    ensures { IfOk result (λ made. stmt made ≡ passes.set_word (names.written array) 0) }
{
    Ok(set_word(written_word(alloc, array)?, 0))
}

/// Adds the two tables, once the writes are counted.
pub fn add_tables(
    alloc: Global,
    array: u64,
    extents: &[Expr],
    text: &mut Stmts,
) -> Result<(), OutOfMemory>
    ensures { OnOk result (Adds text.old text.new
        (table (names.current array) (tables.cells_of (exprs extents.now))
        ∷ table (names.counts array)
        (bin BinOp.Add (tables.cells_of (exprs extents.now)) (var (names.written array))) ∷ [])) }
{
    let name = current_table(alloc, array)?;
    let length = cells_of(alloc, extents)?;
    text.push(Stmt::Table { name, length })?;
    let name = count_table(alloc, array)?;
    let length = next_write(alloc, array, extents)?;
    text.push(Stmt::Table { name, length })?;
    Ok(())
}

/// The count of the definition of this number is taken from its table.
pub fn take_count(alloc: Global, array: u64, definition: Expr) -> Result<Stmt, OutOfMemory>
    ensures { IfOk result (λ made. stmt made ≡ assigns (var names.count) None
        (widen (cell (names.counts array) (tables.one (expr definition))))) }
{
    let counts = entry(alloc, count_table(alloc, array)?, definition)?;
    Ok(assign(use_count(alloc)?, None, widened(alloc, counts)?))
}
