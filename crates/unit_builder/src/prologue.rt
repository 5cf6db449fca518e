//! The prologue: each cell of each array is read once, and its value times its count is added to
//! the definition total.

ghost use Rattle.std.specs.Prelude.{◌≡◌, ◌≤◌, ◌∷◌, [], IfOk, OnOk, length, map};
ghost use Rattle.c_tree.specs.Trees.{exprs, param, stmt, stmts};
ghost use Rattle.instrumentation.specs.Guarded.{arrays_with_extents};
ghost use Rattle.instrumentation.specs.Prologue.{cell_loops, add_cell, cell_text, array_text, prologue_text};
ghost use Rattle.text_parts.specs.Built.{Adds};
ghost use Rattle.unit_builder.specs.CellPieces.{initial_pieces};
ghost use Rattle.unit_builder.specs.CellPieces.{initial_of};
ghost use Rattle.text_parts.specs.Small.{IsSmall};

use crate::pieces::{coordinates, initial_piece};
use body_builder::{add_piece, read_cell};
use c_tree::{BinOp, Expr, Name, OutOfMemory, Param, Rel, Stmt, Stmts};
use sqlite_items::Items;
use std::alloc::Global;
use text_parts::{assign, coordinate, definition_total, only, register, repeat, use_count};

/// A loop over the coordinates of each dimension.
fn over_cells(alloc: Global, extents: &[Expr], body: Stmts) -> Result<Stmts, OutOfMemory>
    ensures { IfOk result (λ made. map stmt made
        ≡ cell_loops 0 (exprs extents.now) (map stmt body)) }
{
    let mut body = body;
    for dimension in (0..extents.len()).rev() {
        let var = coordinate(alloc, dimension as u64)?;
        let extent = extents[dimension].copy(alloc)?;
        body = only(alloc, repeat(var, Expr::Lit(0), Rel::Lt, extent, body))?;
    }
    Ok(body)
}

/// The product of the word of a cell and its count is added to the definition total of an array.
fn add_cell_of(alloc: Global, array: u64) -> Result<Stmt, OutOfMemory>
    ensures { IfOk result (λ made. stmt made ∷ [] ≡ add_cell array) }
{
    let word = Box::new(alloc, Expr::Var(register(alloc, 0)?))?;
    let word = Box::new(alloc, Expr::Widen(word))?;
    let count = Box::new(alloc, Expr::Var(use_count(alloc)?))?;
    let product = Expr::Bin(BinOp::Mul, word, count);
    Ok(assign(definition_total(alloc, array)?, Some(BinOp::Add), product))
}

/// The statements for a cell of an array, with the piece that sets its count.
fn for_cell(
    alloc: Global,
    array: u64,
    name: &Name,
    extents: &[Expr],
    piece: Stmts,
) -> Result<Stmts, OutOfMemory>
    ensures { IfOk result (λ made. map stmt made
        ≡ cell_text array name.now.bytes (exprs extents.now) (map stmt piece)) }
{
    let mut text = Items::new(alloc);
    let cell = coordinates(alloc, extents)?;
    text.push(read_cell(alloc, 0, name, &cell)?)?;
    text.append(piece)?;
    text.push(add_cell_of(alloc, array)?)?;
    Ok(text)
}

/// The statements for all cells of an array.
fn for_array(
    alloc: Global,
    array: u64,
    name: &Name,
    extents: &[Expr],
    piece: Stmts,
) -> Result<Stmts, OutOfMemory>
    ensures { IfOk result (λ made. map stmt made
        ≡ array_text array name.now.bytes (exprs extents.now) (map stmt piece)) }
{
    let cell = for_cell(alloc, array, name, extents, piece)?;
    over_cells(alloc, extents, cell)
}

/// Adds the statements for all cells of an array, with the piece of each.
fn add_array(
    alloc: Global,
    params: &[Param],
    whole: &Stmts,
    array: u64,
    name: &Name,
    extents: &[Expr],
    text: &mut Stmts,
) -> Result<(), OutOfMemory>
    requires { IsSmall (stmts whole.now) }
    ensures { OnOk result (Adds text.old text.new (array_text array name.now.bytes (exprs extents.now)
        (initial_of params.now whole.now array (exprs extents.now)))) }
{
    let piece = initial_piece(alloc, params, whole, array, extents)?;
    text.append(for_array(alloc, array, name, extents, piece)?)?;
    Ok(())
}

/// Adds the prologue of a source.
pub fn add_prologue(
    alloc: Global,
    params: &[Param],
    whole: &Stmts,
    text: &mut Stmts,
) -> Result<(), OutOfMemory>
    requires { IsSmall (stmts whole.now) }
    ensures { OnOk result (Adds text.old text.new
        (prologue_text (initial_of params.now whole.now) 0
        (arrays_with_extents (map param params.now)))) }
{
    let mut array = 0;
    for p in params {
        if let Param::Array { name, extents, .. } = p {
            add_array(alloc, params, whole, array, name, extents.as_slice(), text)?;
            array += 1;
        }
    }
    Ok(())
}

/// Adds the statements for all cells of an array, with the given piece for each.
fn add_given_array(
    alloc: Global,
    array: u64,
    name: &Name,
    extents: &[Expr],
    piece: &Stmts,
    text: &mut Stmts,
) -> Result<(), OutOfMemory>
    ensures { OnOk result (Adds text.old text.new
        (array_text array name.now.bytes (exprs extents.now) (map stmt piece.now))) }
{
    let mut copied = Items::new(alloc);
    add_piece(alloc, piece, &mut copied)?;
    text.append(for_array(alloc, array, name, extents, copied)?)?;
    Ok(())
}

/// Adds a prologue with the given pieces, one for each array.
pub fn add_given_prologue(
    alloc: Global,
    params: &[Param],
    pieces: &[Stmts],
    text: &mut Stmts,
) -> Result<(), OutOfMemory>
    requires { length (arrays_with_extents (map param params.now)) ≤ length pieces.now }
    ensures { OnOk result (Adds text.old text.new (prologue_text (initial_pieces pieces.now) 0
        (arrays_with_extents (map param params.now)))) }
{
    let mut array = 0;
    for p in params {
        if let Param::Array { name, extents, .. } = p {
            let piece = &pieces[array as usize];
            add_given_array(alloc, array, name, extents.as_slice(), piece, text)?;
            array += 1;
        }
    }
    Ok(())
}
