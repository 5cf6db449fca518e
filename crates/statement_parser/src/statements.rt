//! Statements and blocks.

ghost use Rattle.std.specs.Prelude.{◌≡◌, Some};
ghost use Rattle.c_tree.specs.Plain.{no_stmts};
ghost use Rattle.c_tree.specs.Trees as t;
ghost use Rattle.c_tree.specs.declared.symbol.Symbol.TheVariants as s;
ghost use Rattle.expression_parser.specs.Terminals.{all_seen};
ghost use Rattle.expression_parser.specs.Outcome.{Gives};
ghost use Rattle.grammar_reading.specs.Blocks as spec;
ghost use Rattle.grammar_reading.specs.Reading as reading;

use crate::assignment::{assignment, only};
use crate::check::{check_end, check_front};
use crate::loop_head::{for_bound, for_start, for_step, loop_of};
use c_tree::{Stmt, Stmts, Symbol, Tests};
use expression_parser::{ParseError, Terminal, after, conds, expect};
use grammar_reading::Rules;
use sqlite_items::Items;
use std::alloc::Global;

/// A statement that is no block: a list of it alone, or no statement for `;`. It is at most `depth`
/// high.
#[cycle(statements)]
#[tactic(auto, unfolding(grammar_reading::specs::Blocks::simple))]
pub fn unbraced<'s>(
    alloc: Global,
    c: Rules,
    depth: usize,
    text: &[u8],
    ts: &'s [Terminal],
) -> Result<(Stmts, &'s [Terminal]), ParseError>
    ensures { Gives (λ x. (t.stmts x.0, all_seen text.now x.1.now)) result
        (spec.simple c depth (all_seen text.now ts.entry.now)) }
{
    if depth > 0 {
        return by_front(alloc, c, depth - 1, text, ts);
    }
    let rest = expect(Symbol::Semicolon, text, ts)?;
    Ok((Items::new(alloc), rest))
}

/// A statement that is no block, with statements in it that are at most `depth` high.
#[cycle(statements)]
#[tactic(auto, unfolding(grammar_reading::specs::Blocks::stmt_at))]
fn by_front<'s>(
    alloc: Global,
    c: Rules,
    depth: usize,
    text: &[u8],
    ts: &'s [Terminal],
) -> Result<(Stmts, &'s [Terminal]), ParseError>
    ensures { Gives (λ x. (t.stmts x.0, all_seen text.now x.1.now)) result
        (spec.stmt_at c (spec.body (spec.simple c depth) c.turns)
        (all_seen text.now ts.entry.now)) }
{
    match ts {
        [Terminal::Name(_, _), ..] => assignment(alloc, c, text, ts),
        [Terminal::Symbol(first), rest @ ..] => by_symbol(alloc, c, depth, *first, text, rest),
        _ => Err(ParseError::Syntax(ts.len())),
    }
}

#[cycle(statements)]
fn by_symbol<'s>(
    alloc: Global,
    c: Rules,
    depth: usize,
    first: Symbol,
    text: &[u8],
    ts: &'s [Terminal],
) -> Result<(Stmts, &'s [Terminal]), ParseError>
    ensures { Gives (λ x. (t.stmts x.0, all_seen text.now x.1.now)) result
        (spec.by_sign c (spec.body (spec.simple c depth) c.turns) first
        (all_seen text.now ts.entry.now)) }
{
    match first {
        Symbol::Semicolon => Ok((Items::new(alloc), ts)),
        Symbol::For => for_loop(alloc, c, depth, text, ts),
        Symbol::If => if_or_check(alloc, c, depth, text, ts),
        _ => Err(ParseError::Syntax(ts.len())),
    }
}

#[cycle(statements)]
#[tactic(auto, unfolding(grammar_reading::specs::Blocks::for_at))]
fn for_loop<'s>(
    alloc: Global,
    c: Rules,
    depth: usize,
    text: &[u8],
    ts: &'s [Terminal],
) -> Result<(Stmts, &'s [Terminal]), ParseError>
    ensures { Gives (λ x. (t.stmts x.0, all_seen text.now x.1.now)) result
        (spec.for_at c (spec.body (spec.simple c depth) c.turns) (all_seen text.now ts.entry.now)) }
{
    let (start, rest) = for_start(alloc, c, text, ts)?;
    let v = start.var.word(text);
    let (bound, rest) = for_bound(alloc, c, v, text, rest)?;
    let rest = for_step(v, text, rest)?;
    let (body, rest) = statement(alloc, c, depth, text, rest)?;
    Ok((loop_of(alloc, text, start, bound, body)?, rest))
}

#[cycle(statements)]
#[tactic(auto, unfolding(grammar_reading::specs::Blocks::if_at))]
fn if_or_check<'s>(
    alloc: Global,
    c: Rules,
    depth: usize,
    text: &[u8],
    ts: &'s [Terminal],
) -> Result<(Stmts, &'s [Terminal]), ParseError>
    ensures { Gives (λ x. (t.stmts x.0, all_seen text.now x.1.now)) result
        (spec.if_at c (spec.body (spec.simple c depth) c.turns) (all_seen text.now ts.entry.now)) }
{
    let rest = expect(Symbol::OpenParen, text, ts)?;
    if !c.printed {
        return choice(alloc, c, depth, text, rest);
    }
    match check_front(alloc, c, text, rest) {
        Ok((front, rest)) => check_end(alloc, front, text, rest),
        Err(ParseError::Syntax(_)) => choice(alloc, c, depth, text, rest),
        Err(ParseError::Memory) => Err(ParseError::Memory),
    }
}

/// An `if`, behind its opening parenthesis.
#[cycle(statements)]
#[tactic(auto, unfolding(grammar_reading::specs::Blocks::if_plain))]
fn choice<'s>(
    alloc: Global,
    c: Rules,
    depth: usize,
    text: &[u8],
    ts: &'s [Terminal],
) -> Result<(Stmts, &'s [Terminal]), ParseError>
    ensures { Gives (λ x. (t.stmts x.0, all_seen text.now x.1.now)) result
        (spec.if_plain c (spec.body (spec.simple c depth) c.turns)
        (all_seen text.now ts.entry.now)) }
{
    let (tests, rest) = conds(alloc, c, text, ts)?;
    let rest = expect(Symbol::CloseParen, text, rest)?;
    let (then, rest) = statement(alloc, c, depth, text, rest)?;
    other_part(alloc, c, depth, tests, then, text, rest)
}

/// The `else` of an `if`, where there is one.
#[cycle(statements)]
fn other_part<'s>(
    alloc: Global,
    c: Rules,
    depth: usize,
    tests: Tests,
    then: Stmts,
    text: &[u8],
    ts: &'s [Terminal],
) -> Result<(Stmts, &'s [Terminal]), ParseError>
    ensures { Gives (λ x. (t.stmts x.0, all_seen text.now x.1.now)) result
        (spec.else_by c (spec.body (spec.simple c depth) c.turns) (t.tests tests) (t.stmts then)
        (all_seen text.now ts.entry.now)
        (reading.expect s.Else (all_seen text.now ts.entry.now))) }
{
    match after(Symbol::Else, text, ts) {
        None => {
            let other = Items::new(alloc);
            Ok((only(alloc, Stmt::If { tests, then, other })?, ts))
        }
        Some(behind) => {
            let (other, rest) = statement(alloc, c, depth, text, behind)?;
            Ok((only(alloc, Stmt::If { tests, then, other })?, rest))
        }
    }
}

/// A statement, at most `depth` high: the list that it stands for.
#[cycle(statements)]
pub fn statement<'s>(
    alloc: Global,
    c: Rules,
    depth: usize,
    text: &[u8],
    ts: &'s [Terminal],
) -> Result<(Stmts, &'s [Terminal]), ParseError>
    ensures { Gives (λ x. (t.stmts x.0, all_seen text.now x.1.now)) result
        (spec.body (spec.simple c depth) c.turns (all_seen text.now ts.entry.now)) }
{
    match after(Symbol::OpenBrace, text, ts) {
        Some(inside) => block(alloc, c, depth, text, inside),
        None => unbraced(alloc, c, depth, text, ts),
    }
}

/// The statements of a block, from behind its opening brace, and what follows its closing one. They
/// are at most `depth` high.
#[cycle(statements)]
pub fn block<'s>(
    alloc: Global,
    c: Rules,
    depth: usize,
    text: &[u8],
    ts: &'s [Terminal],
) -> Result<(Stmts, &'s [Terminal]), ParseError>
    ensures { Gives (λ x. (t.stmts x.0, all_seen text.now x.1.now)) result
        (spec.inside (spec.simple c depth) c.turns 0 no_stmts (all_seen text.now ts.entry.now)) }
{
    let mut list = Items::new(alloc);
    let mut held: usize = 0;
    let mut rest = ts;
    for _turn in 0..c.turns {
        if let Some(behind) = after(Symbol::CloseBrace, text, rest) {
            if held == 0 {
                return Ok((list, behind));
            }
            held -= 1;
            rest = behind;
            continue;
        }
        if let Some(behind) = after(Symbol::OpenBrace, text, rest) {
            held += 1;
            rest = behind;
            continue;
        }
        let (more, behind) = unbraced(alloc, c, depth, text, rest)?;
        list.append(more)?;
        rest = behind;
    }
    Err(ParseError::Syntax(rest.len()))
}
