//! The checks of a printed text.

ghost use Rattle.std.specs.Prelude.{◌≡◌, Some, None, IfOk};
ghost use Rattle.c_tree.specs.Plain.{Word, PlainExpr, check};
ghost use Rattle.c_tree.specs.Trees as t;
ghost use Rattle.c_tree.specs.Grammar.Statements.{one};
ghost use Rattle.expression_parser.specs.Terminals.{all_seen};
ghost use Rattle.expression_parser.specs.Outcome.{Gives};
ghost use Rattle.grammar_reading.specs.Blocks as spec;
ghost use Rattle.grammar_reading.specs.declared.rules.Rules.{Rules};
ghost use Rattle.statement_parser.specs.Names.{name_in};
ghost use Rattle.statement_parser.specs.Tails.{behind_extent};

use crate::assignment::only;
use crate::tokens::{Span, name};
use c_tree::{Expr, Stmt, Stmts, Symbol};
use expression_parser::{ParseError, Terminal, expect, full_expression, name_of, number};
use grammar_reading::Rules;
use std::alloc::Global;

/// The word that is checked, and the extent that it must be below.
#[derive(Drop)]
pub struct Front {
    pub value: Span,
    pub extent: Box<Expr>,
}

/// What stands before the extent: `x >= (uint64_t)(`.
#[tactic(auto, unfolding(grammar_reading::specs::Blocks::check_start))]
fn check_start<'s>(text: &[u8], ts: &'s [Terminal]) -> Result<(Span, &'s [Terminal]), ParseError>
    ensures { (c : Rules) → Gives (λ x. (name_in text.now x.0, all_seen text.now x.1.now)) result
        (spec.check_start c (all_seen text.now ts.entry.now)) }
{
    let (value, rest) = name(text, ts)?;
    let rest = expect(Symbol::GreaterEqual, text, rest)?;
    let rest = expect(Symbol::OpenParen, text, rest)?;
    let rest = expect(Symbol::Uint64, text, rest)?;
    let rest = expect(Symbol::CloseParen, text, rest)?;
    let rest = expect(Symbol::OpenParen, text, rest)?;
    Ok((value, rest))
}

/// What stands behind the extent: `) ) { return`.
fn check_body<'s>(text: &[u8], ts: &'s [Terminal]) -> Result<&'s [Terminal], ParseError>
    ensures { (extent : PlainExpr) → Gives (λ x. (extent, all_seen text.now x.now)) result
        (behind_extent extent (all_seen text.now ts.entry.now)) }
{
    let rest = expect(Symbol::CloseParen, text, ts)?;
    let rest = expect(Symbol::CloseParen, text, rest)?;
    let rest = expect(Symbol::OpenBrace, text, rest)?;
    expect(Symbol::Return, text, rest)
}

#[tactic(auto, unfolding(grammar_reading::specs::Blocks::check_middle))]
fn check_middle<'s>(
    alloc: Global,
    c: Rules,
    text: &[u8],
    ts: &'s [Terminal],
) -> Result<(Box<Expr>, &'s [Terminal]), ParseError>
    ensures { Gives (λ x. (t.expr x.0.value, all_seen text.now x.1.now)) result
        (spec.check_middle c (all_seen text.now ts.entry.now)) }
{
    let (extent, rest) = full_expression(alloc, c, text, ts)?;
    let rest = check_body(text, rest)?;
    Ok((extent, rest))
}

/// A check up to its `return`, behind the parenthesis of its `if`.
#[tactic(auto, unfolding(grammar_reading::specs::Blocks::check_front))]
pub fn check_front<'s>(
    alloc: Global,
    c: Rules,
    text: &[u8],
    ts: &'s [Terminal],
) -> Result<(Front, &'s [Terminal]), ParseError>
    ensures { Gives
        (λ x. ((name_in text.now x.0.value, t.expr x.0.extent.value), all_seen text.now x.1.now))
        result
        (spec.check_front c (all_seen text.now ts.entry.now)) }
{
    let (value, rest) = check_start(text, ts)?;
    let (extent, rest) = check_middle(alloc, c, text, rest)?;
    Ok((Front { value, extent }, rest))
}

/// The array of which a check that returns the word is: it is a where the word is 2^(16 + a).
fn array_of(code: u64) -> Option<u32>
    ensures { result ≡ spec.array_below 48 code }
{
    let mut below = 48;
    while below > 0 {
        below -= 1;
        if code == 1 << (16 + below) {
            return Some(below);
        }
    }
    None
}

/// The rest of a check, behind its `return`: the number of its array.
#[tactic(auto, unfolding(grammar_reading::specs::Blocks::check_end))]
fn check_array<'s>(text: &[u8], ts: &'s [Terminal]) -> Result<(u32, &'s [Terminal]), ParseError>
    ensures { (c : Rules) (front : Word × PlainExpr) → Gives
        (λ x. (one (check front.0 front.1 x.0), all_seen text.now x.1.now)) result
        (spec.check_end c front (all_seen text.now ts.entry.now)) }
{
    let (code, rest) = number(text, ts)?;
    let rest = expect(Symbol::Semicolon, text, rest)?;
    let rest = expect(Symbol::CloseBrace, text, rest)?;
    match array_of(code) {
        Some(array) => Ok((array, rest)),
        None => Err(ParseError::Syntax(ts.len())),
    }
}

pub fn check_end<'s>(
    alloc: Global,
    front: Front,
    text: &[u8],
    ts: &'s [Terminal],
) -> Result<(Stmts, &'s [Terminal]), ParseError>
    ensures { (c : Rules) → Gives (λ x. (t.stmts x.0, all_seen text.now x.1.now)) result
        (spec.check_end c (name_in text.now front.value, t.expr front.extent.value)
        (all_seen text.now ts.entry.now)) }
{
    let (array, rest) = check_array(text, ts)?;
    let value = name_of(alloc, front.value.word(text))?;
    let stmt = Stmt::Check {
        value,
        extent: Box::into_inner(front.extent),
        array,
    };
    Ok((only(alloc, stmt)?, rest))
}
