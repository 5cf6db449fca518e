//! Whole units.

ghost use Rattle.std.specs.Prelude.{◌≡◌, map, Some, None, IfOk};
ghost use Rattle.c_tree.specs.Names as names;
ghost use Rattle.c_tree.specs.Plain as plain;
ghost use Rattle.c_tree.specs.Trees as t;
ghost use Rattle.c_tree.specs.Grammar.Statements.{chain, one};
ghost use Rattle.expression_parser.specs.Terminals.{all_seen};
ghost use Rattle.expression_parser.specs.Outcome.{Gives};
ghost use Rattle.grammar_reading.specs.Reading as reading;
ghost use Rattle.grammar_reading.specs.UnitReading as spec;
ghost use Rattle.c_tree.specs.declared.symbol.Symbol.TheVariants as s;
ghost use Rattle.c_parser.specs.Started.{start_seen, unit_seen};

use crate::checks::all_checks_below;
use crate::declarations::{wides, words};
use crate::param::params;
use crate::range::ranges;
use crate::top_level::{statement_limit, top_level};
use crate::verdict::{arrays_among, verdict};
use crate::wanted::{Wanted, fixed};
use c_tree::{Name, NameList, OutOfMemory, Params, Ranges, Stmt, Stmts, Symbol, Unit, Words};
use expression_parser::{ParseError, Terminal, after, expect, name_of};
use grammar_reading::Rules;
use sqlite_items::Items;
use statement_parser::{block, name};
use std::alloc::Global;

/// The name of a function, and its parameters.
#[derive(Drop)]
struct Function {
    name: Name,
    params: Params,
}

/// What stands before the statements of a source.
#[derive(Drop)]
struct Start {
    ranges: Ranges,
    function: Function,
    words: Words,
}

/// The statements before `#pragma balance begin`, and those behind it.
#[derive(Drop)]
struct Halves {
    before: Stmts,
    behind: Stmts,
}

/// Behind the function's type: `shift(int64_t n, uint64_t A[n]) {`
#[tactic(auto, unfolding(grammar_reading::specs::UnitReading::head_at))]
fn head<'s>(
    alloc: Global,
    c: Rules,
    text: &[u8],
    ts: &'s [Terminal],
) -> Result<(Function, &'s [Terminal]), ParseError>
    ensures { Gives (λ x. ((t.word x.0.name, map t.param x.0.params), all_seen text.now x.1.now))
        result
        (spec.head_at c (all_seen text.now ts.entry.now)) }
{
    let (place, rest) = name(text, ts)?;
    let rest = expect(Symbol::OpenParen, text, rest)?;
    let (params, rest) = params(alloc, c, text, rest)?;
    let rest = expect(Symbol::CloseParen, text, rest)?;
    let rest = expect(Symbol::OpenBrace, text, rest)?;
    let name = name_of(alloc, place.word(text))?;
    Ok((Function { name, params }, rest))
}

/// What stands before the statements. `kind` is the function's type.
#[tactic(auto, unfolding(grammar_reading::specs::UnitReading::start_at))]
fn start_of<'s>(
    alloc: Global,
    c: Rules,
    kind: Symbol,
    text: &[u8],
    ts: &'s [Terminal],
) -> Result<(Start, &'s [Terminal]), ParseError>
    ensures { Gives (λ x. (start_seen x.0, all_seen text.now x.1.now)) result
        (spec.start_at c kind (all_seen text.now ts.entry.now)) }
{
    let (ranges, rest) = ranges(alloc, c, text, ts)?;
    let rest = expect(kind, text, rest)?;
    let (function, rest) = head(alloc, c, text, rest)?;
    let (words, rest) = words(alloc, c, text, rest)?;
    Ok((
        Start {
            ranges,
            function,
            words,
        },
        rest,
    ))
}

/// A unit of these parts.
fn made(start: Start, version: Option<u8>, wides: NameList, body: Stmts) -> Unit
    ensures { t.unit result ≡ unit_seen (start_seen start) version (names.words wides) (t.stmts body) }
{
    Unit {
        version,
        ranges: start.ranges,
        name: start.function.name,
        params: start.function.params,
        words: start.words,
        wides,
        body,
    }
}

#[tactic(auto, unfolding(grammar_reading::specs::UnitReading::source_at))]
fn source<'s>(
    alloc: Global,
    c: Rules,
    text: &[u8],
    ts: &'s [Terminal],
) -> Result<(Unit, &'s [Terminal]), ParseError>
    ensures { Gives (λ x. (t.unit x.0, all_seen text.now x.1.now)) result
        (spec.source_at c (all_seen text.now ts.entry.now)) }
{
    let (start, rest) = start_of(alloc, c, Symbol::Void, text, ts)?;
    let (body, rest) = block(alloc, c, statement_limit(c.printed), text, rest)?;
    Ok((made(start, None, Items::new(alloc), body), rest))
}

#[tactic(auto, unfolding(grammar_reading::specs::UnitReading::halves_at))]
fn both_halves<'s>(
    alloc: Global,
    c: Rules,
    text: &[u8],
    ts: &'s [Terminal],
) -> Result<(Halves, &'s [Terminal]), ParseError>
    ensures { Gives (λ x. ((t.stmts x.0.before, t.stmts x.0.behind), all_seen text.now x.1.now))
        result
        (spec.halves_at c (all_seen text.now ts.entry.now)) }
{
    let begin = [
        Wanted::Mark(Symbol::Directive),
        Wanted::Word(b"begin"),
        Wanted::Mark(Symbol::EndLine),
    ];
    let (before, rest) = top_level(alloc, c, text, ts)?;
    let rest = fixed(&begin, text, rest)?;
    let (behind, rest) = top_level(alloc, c, text, rest)?;
    Ok((Halves { before, behind }, rest))
}

/// All statements in one list, `begin` and the verdict among them.
fn joined(halves: Halves) -> Result<Stmts, OutOfMemory>
    ensures { IfOk result (λ list. t.stmts list ≡ chain (t.stmts halves.before)
        (plain.more_stmts plain.begin (chain (t.stmts halves.behind) (one plain.verdict)))) }
{
    let Halves {
        before: mut list,
        behind,
    } = halves;
    list.push(Stmt::Begin)?;
    list.append(behind)?;
    list.push(Stmt::Verdict)?;
    Ok(list)
}

/// The body of a printed function with so many arrays, behind its declarations.
#[tactic(auto, unfolding(grammar_reading::specs::UnitReading::printed_body))]
fn printed_body<'s>(
    alloc: Global,
    c: Rules,
    arrays: usize,
    text: &[u8],
    ts: &'s [Terminal],
) -> Result<(Stmts, &'s [Terminal]), ParseError>
    ensures { Gives (λ x. (t.stmts x.0, all_seen text.now x.1.now)) result
        (spec.printed_body c arrays (all_seen text.now ts.entry.now)) }
{
    let (halves, rest) = both_halves(alloc, c, text, ts)?;
    let rest = verdict(arrays, text, rest)?;
    let rest = expect(Symbol::CloseBrace, text, rest)?;
    if !all_checks_below(arrays, halves.before.as_slice())
        || !all_checks_below(arrays, halves.behind.as_slice())
    {
        return Err(ParseError::Syntax(ts.len()));
    }
    Ok((joined(halves)?, rest))
}

/// A printed unit, behind the preamble.
#[tactic(auto, unfolding(grammar_reading::specs::UnitReading::printed_at))]
fn printed<'s>(
    alloc: Global,
    c: Rules,
    text: &[u8],
    ts: &'s [Terminal],
) -> Result<(Unit, &'s [Terminal]), ParseError>
    ensures { Gives (λ x. (t.unit x.0, all_seen text.now x.1.now)) result
        (spec.printed_at c (all_seen text.now ts.entry.now)) }
{
    let version = [
        Wanted::Mark(Symbol::Directive),
        Wanted::Word(b"version"),
        Wanted::Number(1),
        Wanted::Mark(Symbol::EndLine),
    ];
    let rest = fixed(&version, text, ts)?;
    let (start, rest) = start_of(alloc, c, Symbol::Uint64, text, rest)?;
    let (wides, rest) = wides(alloc, c, text, rest)?;
    let arrays = arrays_among(start.function.params.as_slice());
    let (body, rest) = printed_body(alloc, c, arrays, text, rest)?;
    Ok((made(start, Some(1), wides, body), rest))
}

/// The rules of a text, for fewer tokens than so many.
fn rules_of(printed: bool, turns: usize) -> Rules
    ensures { result ≡ spec.rules_of printed turns }
{
    let limit = if printed { 256 } else { 64 };
    Rules {
        printed,
        limit,
        turns,
    }
}

/// A unit at the front: a printed one behind a preamble, and else a source.
fn unit_by_front<'s>(
    alloc: Global,
    turns: usize,
    text: &[u8],
    ts: &'s [Terminal],
) -> Result<(Unit, &'s [Terminal]), ParseError>
    ensures { Gives (λ x. (t.unit x.0, all_seen text.now x.1.now)) result
        (spec.unit_by turns (all_seen text.now ts.entry.now)
        (reading.expect s.Preamble (all_seen text.now ts.entry.now))) }
{
    match after(Symbol::Preamble, text, ts) {
        Some(behind) => printed(alloc, rules_of(true, turns), text, behind),
        None => source(alloc, rules_of(false, turns), text, ts),
    }
}

/// The unit of all tokens.
#[tactic(auto, unfolding(grammar_reading::specs::UnitReading::unit_at))]
pub fn unit_of(alloc: Global, text: &[u8], ts: &[Terminal]) -> Result<Unit, ParseError>
    ensures { Gives t.unit result (spec.unit_at (all_seen text.now ts.now)) }
{
    let (unit, rest) = unit_by_front(alloc, ts.len() + 1, text, ts)?;
    match rest {
        [] => Ok(unit),
        [_, ..] => Err(ParseError::Syntax(rest.len())),
    }
}
