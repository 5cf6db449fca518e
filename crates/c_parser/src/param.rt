//! Parameters.

ghost use Rattle.std.specs.Prelude.{◌≡◌, [], map};
ghost use Rattle.c_tree.specs.Trees as t;
ghost use Rattle.expression_parser.specs.Terminals.{all_seen};
ghost use Rattle.expression_parser.specs.Outcome.{Gives};
ghost use Rattle.grammar_reading.specs.HeadReading as heads;
ghost use Rattle.grammar_reading.specs.UnitReading as spec;

use crate::steps::{begins, spelled_name};
use c_tree::{Expr, Exprs, Param, Params, Symbol};
use expression_parser::{ParseError, Terminal, after, expect, full_expression, name_of};
use grammar_reading::Rules;
use sqlite_items::Items;
use statement_parser::name;
use std::alloc::Global;

/// `[n + 1]`
#[tactic(auto, unfolding(grammar_reading::specs::HeadReading::dim))]
fn extent<'s>(
    alloc: Global,
    c: Rules,
    text: &[u8],
    ts: &'s [Terminal],
) -> Result<(Expr, &'s [Terminal]), ParseError>
    ensures { Gives (λ x. (t.expr x.0, all_seen text.now x.1.now)) result
        (heads.dim c (all_seen text.now ts.entry.now)) }
{
    let rest = expect(Symbol::OpenBracket, text, ts)?;
    let (extent, rest) = full_expression(alloc, c, text, rest)?;
    let rest = expect(Symbol::CloseBracket, text, rest)?;
    Ok((Box::into_inner(extent), rest))
}

/// One to three extents.
#[tactic(auto, using(crate::proofs::Extents::dims_stop, crate::proofs::Extents::dims_last, crate::proofs::Extents::dims_next, expression_parser::proofs::RowLemmas::exprs_push))]
fn extents<'s>(
    alloc: Global,
    c: Rules,
    text: &[u8],
    ts: &'s [Terminal],
) -> Result<(Exprs, &'s [Terminal]), ParseError>
    ensures { Gives (λ x. (t.exprs x.0, all_seen text.now x.1.now)) result
        (heads.dims c 2 (all_seen text.now ts.entry.now)) }
{
    let mut extents = Items::new(alloc);
    let mut rest = ts;
    let mut more: u8 = 2;
    'dims: loop {
        let (extent, behind) = extent(alloc, c, text, rest)?;
        extents.push(extent)?;
        rest = behind;
        if more == 0 || !begins(Symbol::OpenBracket, text, rest) {
            return Ok((extents, rest));
        }
        more -= 1;
    }
}

/// `uint64_t A[n]`
#[tactic(auto, unfolding(grammar_reading::specs::HeadReading::array_at))]
fn array<'s>(
    alloc: Global,
    c: Rules,
    constant: bool,
    text: &[u8],
    ts: &'s [Terminal],
) -> Result<(Param, &'s [Terminal]), ParseError>
    ensures { Gives (λ x. (t.param x.0, all_seen text.now x.1.now)) result
        (heads.array_at c constant (all_seen text.now ts.entry.now)) }
{
    let rest = expect(Symbol::Uint64, text, ts)?;
    let (place, rest) = name(text, rest)?;
    let (extents, rest) = extents(alloc, c, text, rest)?;
    let name = name_of(alloc, place.word(text))?;
    Ok((
        Param::Array {
            name,
            constant,
            extents,
        },
        rest,
    ))
}

#[tactic(auto, unfolding(grammar_reading::specs::HeadReading::param_at))]
fn param<'s>(
    alloc: Global,
    c: Rules,
    text: &[u8],
    ts: &'s [Terminal],
) -> Result<(Param, &'s [Terminal]), ParseError>
    ensures { Gives (λ x. (t.param x.0, all_seen text.now x.1.now)) result
        (heads.param_at c (all_seen text.now ts.entry.now)) }
{
    if let Some(rest) = after(Symbol::Int64, text, ts) {
        let (name, rest) = spelled_name(alloc, text, rest)?;
        return Ok((Param::Int(name), rest));
    }
    match after(Symbol::Const, text, ts) {
        Some(rest) => array(alloc, c, true, text, rest),
        None => array(alloc, c, false, text, ts),
    }
}

/// One parameter or more.
#[tactic(auto, using(crate::proofs::Lists::params_stop, crate::proofs::Lists::params_end, crate::proofs::Lists::params_out))]
pub fn params<'s>(
    alloc: Global,
    c: Rules,
    text: &[u8],
    ts: &'s [Terminal],
) -> Result<(Params, &'s [Terminal]), ParseError>
    ensures { Gives (λ x. (map t.param x.0, all_seen text.now x.1.now)) result
        (spec.params c c.turns [] (all_seen text.now ts.entry.now)) }
{
    let mut params = Items::new(alloc);
    let mut rest = ts;
    for _turn in 0..c.turns {
        let (param, behind) = param(alloc, c, text, rest)?;
        params.push(param)?;
        match after(Symbol::Comma, text, behind) {
            Some(next) => rest = next,
            None => return Ok((params, behind)),
        }
    }
    Err(ParseError::Syntax(rest.len()))
}
