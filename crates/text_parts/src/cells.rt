//! Numbers of cells, as words.

ghost use Rattle.std.specs.Prelude.{◌≡◌, ◌<◌, ◌≤◌, ◌^◌, IfOk, drop, length, map, min};
ghost use Rattle.c_tree.specs.Plain.{bin, cast as casts, cell, var, widen};
ghost use Rattle.c_tree.specs.Trees.{expr, exprs};
ghost use Rattle.instrumentation.specs.Names as names;
ghost use Rattle.instrumentation.specs.Passes.{coordinates_from, renamed};
ghost use Rattle.instrumentation.specs.Subscripts.{by_cell};
ghost use Rattle.instrumentation.specs.Tables as tables;
ghost use Rattle.text_parts.specs.Around.{names_of};

use crate::loops::{Loops, rename_expr};
use crate::names::{coordinate, index_word};
use c_tree::{BinOp, Expr, Exprs, Name, OutOfMemory};
use sqlite_items::Items;
use std::alloc::Global;

/// An operation on two expressions.
pub fn operation(alloc: Global, op: BinOp, a: Expr, b: Expr) -> Result<Expr, OutOfMemory>
    ensures { IfOk result (λ made. expr made ≡ bin op (expr a) (expr b)) }
{
    let a = Box::new(alloc, a)?;
    Ok(Expr::Bin(op, a, Box::new(alloc, b)?))
}

/// A cell of a table.
pub fn entry(alloc: Global, table: Name, row: Expr) -> Result<Expr, OutOfMemory>
    ensures { IfOk result (λ made. expr made ≡ cell table.bytes (tables.one (expr row))) }
{
    let mut at = Items::new(alloc);
    at.push(row)?;
    Ok(Expr::Cell(table, at))
}

/// A signed expression as a word.
fn cast(alloc: Global, e: Expr) -> Result<Expr, OutOfMemory>
    ensures { IfOk result (λ made. expr made ≡ casts (expr e)) }
{
    Ok(Expr::Cast(Box::new(alloc, e)?))
}

/// A word as a wide expression.
pub fn widened(alloc: Global, e: Expr) -> Result<Expr, OutOfMemory>
    ensures { IfOk result (λ made. expr made ≡ widen (expr e)) }
{
    Ok(Expr::Widen(Box::new(alloc, e)?))
}

/// How many cells the extents make from this dimension on.
fn cells_from(alloc: Global, extents: &[Expr], first: usize) -> Result<Expr, OutOfMemory>
    requires { first ≤ length extents.now }
    ensures { IfOk result (λ made. expr made ≡ tables.cells_of (exprs (drop first extents.now))) }
{
    let mut cells = Expr::Lit(1);
    for dimension in (first..extents.len()).rev() {
        let extent = cast(alloc, extents[dimension].copy(alloc)?)?;
        cells = operation(alloc, BinOp::Mul, extent, cells)?;
    }
    Ok(cells)
}

/// How many cells these extents make.
pub fn cells_of(alloc: Global, extents: &[Expr]) -> Result<Expr, OutOfMemory>
    ensures { IfOk result (λ made. expr made ≡ tables.cells_of (exprs extents.now)) }
{
    cells_from(alloc, extents, 0)
}

/// A coordinate times so many cells, and the rest of the number.
fn next_row(alloc: Global, at: &Expr, cells: Expr, row: Expr) -> Result<Expr, OutOfMemory>
    ensures { IfOk result (λ made. expr made
        ≡ bin BinOp.Add (bin BinOp.Mul (expr at.now) (expr cells)) (expr row)) }
{
    let part = operation(alloc, BinOp::Mul, at.copy(alloc)?, cells)?;
    operation(alloc, BinOp::Add, part, row)
}

/// The length of the shorter of two lists.
pub fn shared_length(a: &[Expr], b: &[Expr]) -> usize
    ensures { result ≡ min (length a.now) (length b.now) }
{
    if a.len() < b.len() { a.len() } else { b.len() }
}

/// The row-major number of the cell at these words, from this dimension on.
fn row_from(
    alloc: Global,
    extents: &[Expr],
    at: &[Expr],
    dimension: usize,
) -> Result<Expr, OutOfMemory>
    ensures { IfOk result (λ made. expr made ≡ tables.row_of
        (exprs (drop dimension extents.now)) (map expr (drop dimension at.now))) }
{
    if dimension < shared_length(extents, at) {
        let cells = cells_from(alloc, extents, dimension + 1)?;
        let row = row_from(alloc, extents, at, dimension + 1)?;
        next_row(alloc, &at[dimension], cells, row)
    } else {
        Ok(Expr::Lit(0))
    }
}

/// The row-major number of the cell at these words.
pub fn row_of(alloc: Global, extents: &[Expr], at: &[Expr]) -> Result<Expr, OutOfMemory>
    ensures { IfOk result (λ made. expr made ≡ tables.row_of (exprs extents.now) (map expr at.now)) }
{
    row_from(alloc, extents, at, 0)
}

/// A coordinate of a cell in a walk: a signed one as a word, or the word of an index cell.
fn word_at(alloc: Global, loops: &Loops<'_>, dimension: u64, e: &Expr) -> Result<Expr, OutOfMemory>
    requires { length (names_of loops.now) < 2 ^ 64 }
    ensures { IfOk result (λ made. expr made ≡ by_cell (expr e.now)
        (λ x at. var (names.index_word dimension))
        (casts (renamed (names_of loops.now) (expr e.now)))) }
{
    match e {
        Expr::Cell(_, _) => Ok(Expr::Var(index_word(alloc, dimension)?)),
        _ => cast(alloc, rename_expr(alloc, e, loops)?),
    }
}

/// The coordinates of a cell in a walk.
pub fn words_at(alloc: Global, loops: &Loops<'_>, at: &[Expr]) -> Result<Exprs, OutOfMemory>
    requires { length (names_of loops.now) < 2 ^ 64 }
    ensures { IfOk result (λ made. map expr made
        ≡ tables.words_at (names_of loops.now) 0 (exprs at.now)) }
{
    let mut words = Items::new(alloc);
    for (dimension, e) in at.iter().enumerate() {
        words.push(word_at(alloc, loops, dimension as u64, e)?)?;
    }
    Ok(words)
}

/// The coordinates of the prologue as words, one for each extent.
pub fn coordinate_words(alloc: Global, extents: &[Expr]) -> Result<Exprs, OutOfMemory>
    ensures { IfOk result (λ made. map expr made
        ≡ tables.words_from (coordinates_from 0 (exprs extents.now))) }
{
    let mut words = Items::new(alloc);
    for (dimension, _) in extents.iter().enumerate() {
        let word = Expr::Var(coordinate(alloc, dimension as u64)?);
        words.push(cast(alloc, word)?)?;
    }
    Ok(words)
}
