//! The words that tables need, declared with the literal 0.

ghost use Rattle.std.specs.Prelude.{◌≡◌, ◌++◌, [], ◌∷◌, if◌then◌else◌, IfOk, OnOk, map};
ghost use Rattle.c_tree.specs.Trees.{exprs, param, stmts};
ghost use Rattle.instrumentation.specs.Guarded.{arrays_with_extents};
ghost use Rattle.instrumentation.specs.Inspects.{inspects_all};
ghost use Rattle.instrumentation.specs.Names as names;
ghost use Rattle.instrumentation.specs.Pieces as pieces;
ghost use Rattle.text_parts.specs.Numbered.{numbers};
ghost use Rattle.table_builder.specs.Words.{plain_words};

use crate::inspected::is_inspected;
use c_tree::{Expr, OutOfMemory, Param, Stmts, Words};
use std::alloc::Global;
use text_parts::{index_word, written_word};

/// The number of dimensions that these extents have.
#[tactic(auto, using(crate::proofs::Dimensions::dimensions_are_extents))]
fn count_dimensions(extents: &[Expr]) -> u64
    ensures { result ≡ pieces.dimensions (exprs extents.now) }
{
    extents.len() as u64
}

/// The number of dimensions of an array, 0 where it isn't inspected.
fn inspected_dimensions(params: &[Param], whole: &Stmts, array: u64, extents: &[Expr]) -> u64
    ensures { result ≡ if inspects_all (numbers params.now) array (stmts whole.now)
        then pieces.dimensions (exprs extents.now) else 0 }
{
    if is_inspected(params, array, whole) {
        count_dimensions(extents)
    } else {
        0
    }
}

/// The most dimensions of an inspected array.
fn widest(params: &[Param], whole: &Stmts) -> u64
    ensures { result ≡ pieces.widest (numbers params.now) (stmts whole.now) 0
        (arrays_with_extents (map param params.now)) }
{
    let mut most = 0;
    let mut array = 0;
    for p in params {
        if let Param::Array { extents, .. } = p {
            most = inspected_dimensions(params, whole, array, extents.as_slice()).max(most);
            array += 1;
        }
    }
    most
}

/// Adds the declarations of the words of index cells.
fn add_index_words(alloc: Global, dimensions: u64, words: &mut Words) -> Result<(), OutOfMemory>
    ensures { OnOk result (plain_words words.new
        ≡ plain_words words.old ++ pieces.index_words_from 0 dimensions) }
{
    for dimension in 0..dimensions {
        words.push((index_word(alloc, dimension)?, 0))?;
    }
    Ok(())
}

/// Adds the number of an array's writes where it is inspected.
fn add_written_word(
    alloc: Global,
    params: &[Param],
    whole: &Stmts,
    array: u64,
    words: &mut Words,
) -> Result<(), OutOfMemory>
    ensures { OnOk result (plain_words words.new ≡ plain_words words.old
        ++ (if inspects_all (numbers params.now) array (stmts whole.now)
        then (names.written array, 0) ∷ [] else [])) }
{
    if is_inspected(params, array, whole) {
        words.push((written_word(alloc, array)?, 0))?;
    }
    Ok(())
}

/// Adds the numbers of writes of all inspected arrays.
fn add_written_words(
    alloc: Global,
    params: &[Param],
    whole: &Stmts,
    words: &mut Words,
) -> Result<(), OutOfMemory>
    ensures { OnOk result (plain_words words.new ≡ plain_words words.old
        ++ pieces.written_words (numbers params.now) (stmts whole.now) 0
        (arrays_with_extents (map param params.now))) }
{
    let mut array = 0;
    for p in params {
        if let Param::Array { .. } = p {
            add_written_word(alloc, params, whole, array, words)?;
            array += 1;
        }
    }
    Ok(())
}

/// Adds the words of the tables of a source.
pub fn add_table_words(
    alloc: Global,
    params: &[Param],
    whole: &Stmts,
    words: &mut Words,
) -> Result<(), OutOfMemory>
    ensures { OnOk result (plain_words words.new ≡ plain_words words.old
        ++ pieces.table_words (numbers params.now) (stmts whole.now)
        (arrays_with_extents (map param params.now))) }
{
    add_index_words(alloc, widest(params, whole), words)?;
    add_written_words(alloc, params, whole, words)
}
