//! The three pieces of an inspected array: its tables, and the counts that are taken from them.

ghost use Rattle.std.specs.Prelude.{◌≡◌, [], IfOk, OnOk, map};
ghost use Rattle.c_tree.specs.Trees.{exprs, param, stmt, stmts};
ghost use Rattle.instrumentation.specs.Guarded.{arrays_with_extents};
ghost use Rattle.instrumentation.specs.Pieces.{builds};
ghost use Rattle.instrumentation.specs.Tables as tables;
ghost use Rattle.text_parts.specs.Built.{Adds};
ghost use Rattle.text_parts.specs.Numbered.{numbers};
ghost use Rattle.table_builder.specs.Builds.{builds_of, of_each};
ghost use Rattle.text_parts.specs.Small.{IsSmall};

use crate::entries::{add_tables, next_write, none_written, one_more, take_count};
use crate::inspected::is_inspected;
use crate::walks::Walk;
use c_tree::{Expr, OutOfMemory, Param, Stmts};
use std::alloc::Global;
use text_parts::{Loops, coordinate_words, only, row_of};

/// The walk that counts the writes of an array.
#[tactic(auto, unfolding(text_parts::specs::Small::IsSmall, crate::specs::Walks::reads_of, crate::specs::Walks::writes_of))]
fn first_walk(
    alloc: Global,
    params: &[Param],
    whole: &Stmts,
    array: u64,
    extents: &[Expr],
) -> Result<Stmts, OutOfMemory>
    requires { IsSmall (stmts whole.now) }
    ensures { IfOk result (λ made. map stmt made ≡ tables.walk_all tables.no_reads
        (tables.count_writes (numbers params.now) array) [] (stmts whole.now)) }
{
    let walk = Walk {
        params,
        array,
        extents,
        follows: false,
    };
    walk.statements(alloc, &Loops::Outside, whole)
}

/// The walk that follows the definitions of an array.
#[tactic(auto, unfolding(text_parts::specs::Small::IsSmall, crate::specs::Walks::reads_of, crate::specs::Walks::writes_of))]
fn second_walk(
    alloc: Global,
    params: &[Param],
    whole: &Stmts,
    array: u64,
    extents: &[Expr],
) -> Result<Stmts, OutOfMemory>
    requires { IsSmall (stmts whole.now) }
    ensures { IfOk result (λ made. map stmt made ≡ tables.walk_all
        (tables.inspect_reads (numbers params.now) array (exprs extents.now))
        (tables.number_writes (numbers params.now) array (exprs extents.now)) []
        (stmts whole.now)) }
{
    let walk = Walk {
        params,
        array,
        extents,
        follows: true,
    };
    walk.statements(alloc, &Loops::Outside, whole)
}

/// The tables of the array of this number: how many writes there are, the tables themselves, and
/// their entries.
pub fn build(
    alloc: Global,
    params: &[Param],
    whole: &Stmts,
    array: u64,
    extents: &[Expr],
) -> Result<Stmts, OutOfMemory>
    requires { IsSmall (stmts whole.now) }
    ensures { IfOk result (λ made. map stmt made
        ≡ tables.build (numbers params.now) (stmts whole.now) array (exprs extents.now)) }
{
    let mut text = only(alloc, none_written(alloc, array)?)?;
    text.append(first_walk(alloc, params, whole, array, extents)?)?;
    add_tables(alloc, array, extents, &mut text)?;
    text.push(none_written(alloc, array)?)?;
    text.append(second_walk(alloc, params, whole, array, extents)?)?;
    text.push(none_written(alloc, array)?)?;
    Ok(text)
}

/// The count of the initial definition of the cell at the coordinates of the prologue.
pub fn initial(alloc: Global, array: u64, extents: &[Expr]) -> Result<Stmts, OutOfMemory>
    ensures { IfOk result (λ made. map stmt made ≡ tables.initial array (exprs extents.now)) }
{
    let words = coordinate_words(alloc, extents)?;
    let row = row_of(alloc, extents, words.as_slice())?;
    only(alloc, take_count(alloc, array, row)?)
}

/// The count of the next write.
pub fn at_write(alloc: Global, array: u64, extents: &[Expr]) -> Result<Stmts, OutOfMemory>
    ensures { IfOk result (λ made. map stmt made ≡ tables.at_write array (exprs extents.now)) }
{
    let definition = next_write(alloc, array, extents)?;
    let mut text = only(alloc, take_count(alloc, array, definition)?)?;
    text.push(one_more(alloc, array)?)?;
    Ok(text)
}

/// Adds the tables of an array where it is inspected.
#[tactic(auto, unfolding(crate::specs::Builds::builds_of))]
fn add_build(
    alloc: Global,
    params: &[Param],
    whole: &Stmts,
    array: u64,
    extents: &[Expr],
    text: &mut Stmts,
) -> Result<(), OutOfMemory>
    requires { IsSmall (stmts whole.now) }
    ensures { OnOk result (Adds text.old text.new
        (builds_of params.now whole.now array (exprs extents.now))) }
{
    if is_inspected(params, array, whole) {
        text.append(build(alloc, params, whole, array, extents)?)?;
    }
    Ok(())
}

/// Adds the tables of each inspected array.
fn add_each_build(
    alloc: Global,
    params: &[Param],
    whole: &Stmts,
    text: &mut Stmts,
) -> Result<(), OutOfMemory>
    requires { IsSmall (stmts whole.now) }
    ensures { OnOk result (Adds text.old text.new (of_each (builds_of params.now whole.now) 0
        (arrays_with_extents (map param params.now)))) }
{
    let mut array = 0;
    for p in params {
        if let Param::Array { extents, .. } = p {
            add_build(alloc, params, whole, array, extents.as_slice(), text)?;
            array += 1;
        }
    }
    Ok(())
}

/// Adds the tables of all inspected arrays.
pub fn add_builds(
    alloc: Global,
    params: &[Param],
    whole: &Stmts,
    text: &mut Stmts,
) -> Result<(), OutOfMemory>
    requires { IsSmall (stmts whole.now) }
    ensures { OnOk result (Adds text.old text.new (builds (numbers params.now) (stmts whole.now) 0
        (arrays_with_extents (map param params.now)))) }
{
    add_each_build(alloc, params, whole, text)
}
