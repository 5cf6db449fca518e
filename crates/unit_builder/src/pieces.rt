//! Pieces: the statements that set the count of a definition before it is added to its total, one
//! for each assignment of the source and one for the initial cells of each array.

ghost use Rattle.std.specs.Prelude.{◌≡◌, ◌+◌, ◌++◌, ◌<◌, ◌^◌, if◌then◌else◌, IfOk, OnOk, map};
ghost use Rattle.c_tree.specs.Trees.{expr, exprs, param, stmt, stmts};
ghost use Rattle.c_tree.specs.Instances.{sites, sites_all};
ghost use Rattle.instrumentation.specs.Guarded.{arrays_with_extents};
ghost use Rattle.instrumentation.specs.Passes as passes;
ghost use Rattle.instrumentation.specs.Passes.{coordinates_from};
ghost use Rattle.instrumentation.specs.Inspects.{inspects_all};
ghost use Rattle.instrumentation.specs.Pieces as pieces_of;
ghost use Rattle.instrumentation.specs.Tables as tables;
ghost use Rattle.text_parts.specs.Numbered.{numbers, sizes};
ghost use Rattle.unit_builder.specs.CellPieces.{initial_of, passes_of};
ghost use Rattle.unit_builder.specs.Parts.{array_piece, pass_at};
ghost use Rattle.text_parts.specs.Small.{IsSmall};

use crate::targets::target_among;
use c_tree::{Expr, Exprs, OutOfMemory, Param, Stmt, Stmts};
use pass_builder::Pass;
use sqlite_items::Items;
use std::alloc::Global;
use table_builder::{at_write, initial, is_inspected};
use text_parts::{coordinate, count_sites, count_sites_of_all, extents_of, number_of};

/// The pass of the assignment of this number: none where it stores into no array.
fn write_piece(
    alloc: Global,
    params: &[Param],
    whole: &Stmts,
    number: usize,
    target: &Expr,
) -> Result<Stmts, OutOfMemory>
    requires { IsSmall (stmts whole.now) }
    ensures { IfOk result (λ made. map stmt made
        ≡ passes.write_piece (numbers params.now) (stmts whole.now) number (expr target.now)) }
{
    match target {
        Expr::Cell(name, at) => {
            let pass = Pass {
                params,
                array: number_of(params, name),
                at: at.as_slice(),
                site: Some(number),
            };
            pass.text(alloc, whole)
        }
        _ => Ok(Items::new(alloc)),
    }
}

/// A cell by the coordinates of the prologue, one for each extent.
pub fn coordinates(alloc: Global, extents: &[Expr]) -> Result<Exprs, OutOfMemory>
    ensures { IfOk result (λ made. exprs made ≡ coordinates_from 0 (exprs extents.now)) }
{
    let mut cell = Items::new(alloc);
    for (dimension, _) in extents.iter().enumerate() {
        cell.push(Expr::Var(coordinate(alloc, dimension as u64)?))?;
    }
    Ok(cell)
}

/// The pass of the initial cells of an array, by the coordinates of the prologue.
fn cell_piece(
    alloc: Global,
    params: &[Param],
    whole: &Stmts,
    array: u64,
    extents: &[Expr],
) -> Result<Stmts, OutOfMemory>
    requires { IsSmall (stmts whole.now) }
    ensures { IfOk result (λ made. map stmt made
        ≡ passes.cell_piece (numbers params.now) (stmts whole.now) array (exprs extents.now)) }
{
    let at = coordinates(alloc, extents)?;
    let pass = Pass {
        params,
        array,
        at: at.as_slice(),
        site: None,
    };
    pass.text(alloc, whole)
}

/// The piece of the initial cells of an array: from its tables where it is inspected, and else by
/// a pass.
#[tactic(auto, unfolding(crate::specs::CellPieces::initial_of))]
pub fn initial_piece(
    alloc: Global,
    params: &[Param],
    whole: &Stmts,
    array: u64,
    extents: &[Expr],
) -> Result<Stmts, OutOfMemory>
    requires { IsSmall (stmts whole.now) }
    ensures { IfOk result (λ made. map stmt made
        ≡ initial_of params.now whole.now array (exprs extents.now)) }
{
    if is_inspected(params, array, whole) {
        initial(alloc, array, extents)
    } else {
        cell_piece(alloc, params, whole, array, extents)
    }
}

/// The piece of an assignment to a cell of an array: from its tables where it is inspected, and
/// else by a pass.
fn store_piece(
    alloc: Global,
    params: &[Param],
    whole: &Stmts,
    number: usize,
    array: u64,
    extents: &[Expr],
    target: &Expr,
) -> Result<Stmts, OutOfMemory>
    requires { IsSmall (stmts whole.now) }
    ensures { IfOk result (λ made. map stmt made
        ≡ if inspects_all (numbers params.now) array (stmts whole.now)
        then tables.at_write array (exprs extents.now)
        else passes.write_piece (numbers params.now) (stmts whole.now) number (expr target.now)) }
{
    if is_inspected(params, array, whole) {
        at_write(alloc, array, extents)
    } else {
        write_piece(alloc, params, whole, number, target)
    }
}

/// The piece of the assignment of this number: none where it stores into no array.
fn site_piece(
    alloc: Global,
    params: &[Param],
    whole: &Stmts,
    number: usize,
    target: &Expr,
) -> Result<Stmts, OutOfMemory>
    requires { IsSmall (stmts whole.now) }
    ensures { IfOk result (λ made. map stmt made ≡ pieces_of.site_piece (numbers params.now)
        (sizes params.now) (stmts whole.now) number (expr target.now)) }
{
    match target {
        Expr::Cell(name, _) => {
            let array = number_of(params, name);
            let extents = extents_of(params, name);
            store_piece(alloc, params, whole, number, array, extents, target)
        }
        _ => Ok(Items::new(alloc)),
    }
}

/// Adds the pieces of a statement's assignments, which have the numbers from `first` on.
#[cycle(site_pieces)]
fn add_pieces(
    alloc: Global,
    params: &[Param],
    whole: &Stmts,
    first: usize,
    s: &Stmt,
    pieces: &mut Items<Stmts>,
) -> Result<(), OutOfMemory>
    requires small { IsSmall (stmts whole.now) }
    requires numbered { first + sites (stmt s.now) < 2 ^ 64 }
    ensures { OnOk result (map (map stmt) pieces.new ≡ map (map stmt) pieces.old
        ++ pieces_of.site_pieces (numbers params.now) (sizes params.now) (stmts whole.now) first (stmt s.now)) }
{
    match s {
        Stmt::For { body, .. } => add_all_pieces(alloc, params, whole, first, body, pieces),
        Stmt::If { then, other, .. } => {
            let second = first + count_sites_of_all(then);
            add_all_pieces(alloc, params, whole, first, then, pieces)?;
            add_all_pieces(alloc, params, whole, second, other, pieces)
        }
        Stmt::Assign { target, .. } => {
            pieces.push(site_piece(alloc, params, whole, first, target)?)?;
            Ok(())
        }
        Stmt::Table { .. } | Stmt::Begin | Stmt::Check { .. } | Stmt::Verdict => Ok(()),
    }
}

/// Adds the pieces of a list's assignments, which have the numbers from `first` on.
#[cycle(site_pieces)]
fn add_all_pieces(
    alloc: Global,
    params: &[Param],
    whole: &Stmts,
    first: usize,
    body: &Stmts,
    pieces: &mut Items<Stmts>,
) -> Result<(), OutOfMemory>
    requires small { IsSmall (stmts whole.now) }
    requires numbered { first + sites_all (stmts body.now) < 2 ^ 64 }
    ensures { OnOk result (map (map stmt) pieces.new ≡ map (map stmt) pieces.old
        ++ pieces_of.site_pieces_all (numbers params.now) (sizes params.now) (stmts whole.now) first (stmts body.now)) }
{
    let mut next = first;
    for s in body.as_slice() {
        add_pieces(alloc, params, whole, next, s, pieces)?;
        next += count_sites(s);
    }
    Ok(())
}

/// The pieces of all assignments of a source, in text order.
#[tactic(auto, unfolding(text_parts::specs::Small::IsSmall))]
pub fn site_pieces(
    alloc: Global,
    params: &[Param],
    whole: &Stmts,
) -> Result<Items<Stmts>, OutOfMemory>
    requires { IsSmall (stmts whole.now) }
    ensures { IfOk result (λ made. map (map stmt) made
        ≡ pieces_of.site_pieces_all (numbers params.now) (sizes params.now) (stmts whole.now) 0 (stmts whole.now)) }
{
    let mut pieces = Items::new(alloc);
    add_all_pieces(alloc, params, whole, 0, whole, &mut pieces)?;
    Ok(pieces)
}

/// The pass of the initial cells of the array of this number, by the coordinates of the prologue.
pub fn cell_pass(
    alloc: Global,
    params: &[Param],
    whole: &Stmts,
    array: usize,
) -> Result<Stmts, OutOfMemory>
    requires { IsSmall (stmts whole.now) }
    ensures { IfOk result (λ made. map stmt made ≡ array_piece (passes_of params.now whole.now)
        array 0 (arrays_with_extents (map param params.now))) }
{
    let mut number = 0;
    for p in params {
        if let Param::Array { extents, .. } = p {
            if number == array {
                return numbered_pass(alloc, params, whole, number, extents.as_slice());
            }
            number += 1;
        }
    }
    Ok(Items::new(alloc))
}

/// The pass of the initial cells of an array.
#[tactic(auto, unfolding(crate::specs::CellPieces::passes_of))]
fn numbered_pass(
    alloc: Global,
    params: &[Param],
    whole: &Stmts,
    array: usize,
    extents: &[Expr],
) -> Result<Stmts, OutOfMemory>
    requires { IsSmall (stmts whole.now) }
    ensures { IfOk result (λ made. map stmt made
        ≡ passes_of params.now whole.now array (exprs extents.now)) }
{
    cell_piece(alloc, params, whole, array as u64, extents)
}

/// The pass of the assignment of this number, none where it stores into no array.
#[tactic(auto, unfolding(text_parts::specs::Small::IsSmall))]
pub fn write_pass(
    alloc: Global,
    params: &[Param],
    whole: &Stmts,
    number: usize,
) -> Result<Stmts, OutOfMemory>
    requires { IsSmall (stmts whole.now) }
    ensures { IfOk result (λ made. map stmt made
        ≡ pass_at (numbers params.now) (stmts whole.now) number) }
{
    match target_among(whole, number) {
        Some(target) => write_piece(alloc, params, whole, number, target),
        None => Ok(Items::new(alloc)),
    }
}
