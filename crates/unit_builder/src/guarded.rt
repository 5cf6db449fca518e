//! The whole instrumented unit of a source: counts by tables for inspected arrays, and by counting
//! passes for all others.

ghost use Rattle.std.specs.Prelude.{◌≡◌, ◌<◌, ◌^◌, ◌++◌, ◌∷◌, IfOk, OnOk, map, max};
ghost use Rattle.c_tree.specs.Trees.{param, stmt, stmts, unit, word};
ghost use Rattle.c_tree.specs.Instances.{sites_all};
ghost use Rattle.instrumentation.specs.Body.{instrument_all, registers_all};
ghost use Rattle.instrumentation.specs.Guarded as guarded;
ghost use Rattle.instrumentation.specs.Names as names;
ghost use Rattle.instrumentation.specs.Pieces.{piece_at, site_pieces_all, table_words};
ghost use Rattle.text_parts.specs.Numbered.{numbers, sizes};
ghost use Rattle.table_builder.specs.Words.{plain_words};
ghost use Rattle.text_parts.specs.Small.{IsSmall};

use crate::pieces::site_pieces;
use crate::prologue::add_prologue;
use body_builder::instrumented;
use c_tree::{Copied, NameList, OutOfMemory, Param, Stmt, Stmts, Unit, Words};
use sqlite_items::Items;
use std::alloc::Global;
use table_builder::{add_builds, add_table_words};
use text_parts::{
    active_word, count_registers_of_all, counter_word, definition_total, function_name, register,
    stored_word, use_count, use_total,
};

/// Adds the declarations of the words that loads go to.
fn add_registers(alloc: Global, registers: u64, words: &mut Words) -> Result<(), OutOfMemory>
    ensures { OnOk result (plain_words words.new
        ≡ plain_words words.old ++ guarded.register_words 0 registers) }
{
    for load in 0..registers {
        words.push((register(alloc, load)?, 0))?;
    }
    Ok(())
}

/// The words of the source, and those that each text has, of which so many are for loads.
fn own_words(alloc: Global, source: &Words, registers: u64) -> Result<Words, OutOfMemory>
    ensures { IfOk result (λ made. plain_words made
        ≡ plain_words source.now ++ guarded.own_words registers) }
{
    let mut words = source.copy(alloc)?;
    add_registers(alloc, registers, &mut words)?;
    words.push((stored_word(alloc)?, 0))?;
    words.push((active_word(alloc)?, 0))?;
    words.push((counter_word(alloc)?, 0))?;
    Ok(words)
}

/// The words of 64 bits: those of the source, and the text's own.
fn words(
    alloc: Global,
    source: &Words,
    params: &[Param],
    whole: &Stmts,
) -> Result<Words, OutOfMemory>
    requires { registers_all (stmts whole.now) < 2 ^ 64 }
    ensures { IfOk result (λ made. plain_words made ≡ plain_words source.now
        ++ guarded.own_words (max 1 (registers_all (stmts whole.now)))
        ++ table_words (numbers params.now) (stmts whole.now)
        (guarded.arrays_with_extents (map param params.now))) }
{
    let registers = std::cmp::max(1, count_registers_of_all(whole));
    let mut words = own_words(alloc, source, registers)?;
    add_table_words(alloc, params, whole, &mut words)?;
    Ok(words)
}

/// The words of 128 bits: the count, and two totals for each array.
fn wides(alloc: Global, params: &[Param]) -> Result<NameList, OutOfMemory>
    ensures { IfOk result (λ made. map word made
        ≡ names.count ∷ guarded.total_names 0 (guarded.array_names (map param params.now))) }
{
    let mut wides = Items::new(alloc);
    wides.push(use_count(alloc)?)?;
    let mut array = 0;
    for p in params {
        if let Param::Array { .. } = p {
            wides.push(definition_total(alloc, array)?)?;
            wides.push(use_total(alloc, array)?)?;
            array += 1;
        }
    }
    Ok(wides)
}

/// The source's statements, instrumented.
#[tactic(auto, unfolding(text_parts::specs::Small::IsSmall))]
fn guarded_statements(alloc: Global, params: &[Param], whole: &Stmts) -> Result<Stmts, OutOfMemory>
    requires { IsSmall (stmts whole.now) }
    ensures { IfOk result (λ made. map stmt made ≡ instrument_all (numbers params.now) (sizes params.now)
        (piece_at (site_pieces_all (numbers params.now) (sizes params.now) (stmts whole.now) 0
        (stmts whole.now))) 0 (stmts whole.now)) }
{
    let pieces = site_pieces(alloc, params, whole)?;
    instrumented(alloc, params, pieces.as_slice(), 0, whole)
}

/// The tables, the prologue, the instrumented statements and the comparison of all totals.
#[tactic(auto, unfolding(crate::specs::CellPieces::initial_of))]
fn guarded_text(alloc: Global, params: &[Param], whole: &Stmts) -> Result<Stmts, OutOfMemory>
    requires { IsSmall (stmts whole.now) }
    ensures { IfOk result (λ made. map stmt made
        ≡ guarded.guarded_body (map param params.now) (stmts whole.now)) }
{
    let mut text = Items::new(alloc);
    add_builds(alloc, params, whole, &mut text)?;
    add_prologue(alloc, params, whole, &mut text)?;
    text.push(Stmt::Begin)?;
    text.append(guarded_statements(alloc, params, whole)?)?;
    text.push(Stmt::Verdict)?;
    Ok(text)
}

/// The instrumented unit of a source. It fails by memory alone.
#[tactic(auto, unfolding(text_parts::specs::Small::IsSmall))]
pub fn instrumented_unit(alloc: Global, source: &Unit) -> Result<Unit, OutOfMemory>
    requires { IsSmall (stmts source.now.body) }
    ensures { IfOk result (λ made. unit made ≡ guarded.guarded (unit source.now)) }
{
    let ranges = source.ranges.copy(alloc)?;
    let name = function_name(alloc, &source.name)?;
    let params = source.params.copy(alloc)?;
    let words = words(alloc, &source.words, source.params.as_slice(), &source.body)?;
    let wides = wides(alloc, source.params.as_slice())?;
    let body = guarded_text(alloc, source.params.as_slice(), &source.body)?;
    Ok(Unit {
        version: Some(1),
        ranges,
        name,
        params,
        words,
        wides,
        body,
    })
}
