//! Range lines.

ghost use Rattle.std.specs.Prelude.{◌≡◌, []};
ghost use Rattle.expression_parser.specs.Terminals.{all_seen};
ghost use Rattle.expression_parser.specs.Outcome.{Gives};
ghost use Rattle.grammar_reading.specs.HeadReading as heads;
ghost use Rattle.grammar_reading.specs.UnitReading as spec;
ghost use Rattle.c_parser.specs.Seen as seen;

use crate::steps::begins;
use c_tree::{Name, Ranges, Symbol};
use expression_parser::{ParseError, Terminal, after, expect, name_of, number};
use grammar_reading::Rules;
use sqlite_items::Items;
use statement_parser::{name, this_name};
use std::alloc::Global;

/// A literal as a whole number.
#[tactic(auto, unfolding(grammar_reading::specs::HeadReading::plus_at))]
fn plus<'s>(text: &[u8], ts: &'s [Terminal]) -> Result<(i64, &'s [Terminal]), ParseError>
    ensures { Gives (λ x. (x.0, all_seen text.now x.1.now)) result
        (heads.plus_at (all_seen text.now ts.entry.now)) }
{
    let (n, rest) = number(text, ts)?;
    match 0i64.checked_add_unsigned(n) {
        Some(value) => Ok((value, rest)),
        None => Err(ParseError::Syntax(ts.len())),
    }
}

/// A literal behind a minus sign.
#[tactic(auto, unfolding(grammar_reading::specs::HeadReading::minus_at))]
fn minus<'s>(text: &[u8], ts: &'s [Terminal]) -> Result<(i64, &'s [Terminal]), ParseError>
    ensures { Gives (λ x. (x.0, all_seen text.now x.1.now)) result
        (heads.minus_at (all_seen text.now ts.entry.now)) }
{
    let (n, rest) = number(text, ts)?;
    match 0i64.checked_sub_unsigned(n) {
        Some(value) => Ok((value, rest)),
        None => Err(ParseError::Syntax(ts.len())),
    }
}

/// An end of a range.
#[tactic(auto, unfolding(grammar_reading::specs::HeadReading::int_at))]
fn int<'s>(text: &[u8], ts: &'s [Terminal]) -> Result<(i64, &'s [Terminal]), ParseError>
    ensures { Gives (λ x. (x.0, all_seen text.now x.1.now)) result
        (heads.int_at (all_seen text.now ts.entry.now)) }
{
    match after(Symbol::Minus, text, ts) {
        Some(rest) => minus(text, rest),
        None => plus(text, ts),
    }
}

/// `#pragma balance range n -1 9`
#[tactic(auto, unfolding(grammar_reading::specs::HeadReading::range_at))]
fn range<'s>(
    alloc: Global,
    text: &[u8],
    ts: &'s [Terminal],
) -> Result<((Name, i64, i64), &'s [Terminal]), ParseError>
    ensures { Gives (λ x. (seen.range x.0, all_seen text.now x.1.now)) result
        (heads.range_at (all_seen text.now ts.entry.now)) }
{
    let rest = expect(Symbol::Directive, text, ts)?;
    let rest = this_name(b"range", text, rest)?;
    let (place, rest) = name(text, rest)?;
    let (lowest, rest) = int(text, rest)?;
    let (highest, rest) = int(text, rest)?;
    let rest = expect(Symbol::EndLine, text, rest)?;
    let parameter = name_of(alloc, place.word(text))?;
    Ok(((parameter, lowest, highest), rest))
}

/// All range lines.
#[tactic(auto, using(crate::proofs::Lists::many_ends, crate::proofs::Lists::many_stops, crate::proofs::Lists::many_out))]
pub fn ranges<'s>(
    alloc: Global,
    c: Rules,
    text: &[u8],
    ts: &'s [Terminal],
) -> Result<(Ranges, &'s [Terminal]), ParseError>
    ensures { Gives (λ x. (seen.ranges x.0, all_seen text.now x.1.now)) result
        (spec.ranges c.turns [] (all_seen text.now ts.entry.now)) }
{
    let mut ranges = Items::new(alloc);
    let mut rest = ts;
    for _turn in 0..c.turns {
        if !begins(Symbol::Directive, text, rest) {
            return Ok((ranges, rest));
        }
        let (range, behind) = range(alloc, text, rest)?;
        ranges.push(range)?;
        rest = behind;
    }
    Err(ParseError::Syntax(rest.len()))
}
