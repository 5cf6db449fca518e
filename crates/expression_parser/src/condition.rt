//! Conditions.

ghost use Rattle.std.specs.Prelude.{[], None, ◌≡◌, ◌+◌, ◌≤◌, ◌<◌, ℕ, List, length, IfOk, Some};
ghost use Rattle.c_tree.specs.Plain.{PlainTest};
ghost use Rattle.c_tree.specs.Trees as t;
ghost use Rattle.expression_parser.specs.Terminals.{all_seen};
ghost use Rattle.grammar_reading.specs.Reading as spec;
ghost use Rattle.expression_parser.specs.Outcome.{Gives};

use crate::build::Built;
use crate::error::ParseError;
use crate::expression::{climb, close, expression, operand};
use crate::steps::{after, front_rel, opens};
use crate::terminal::Terminal;
use c_tree::{Expr, Rel, Symbol, Tests};
use grammar_reading::Rules;
use sqlite_items::Items;
use std::alloc::Global;

/// A comparison behind its left side, and how many parentheses before that are still open.
#[derive(Drop)]
struct Found {
    held: usize,
    rel: Rel,
    left: Box<Expr>,
}

#[tactic(auto, using(crate::proofs::Seeks::none_found))]
fn seek<'s>(
    alloc: Global,
    c: Rules,
    depth: usize,
    count: usize,
    first: Built,
    text: &[u8],
    ts: &'s [Terminal],
) -> Result<(Found, &'s [Terminal]), ParseError>
    ensures { Gives
        (λ x. ((x.0.held, x.0.rel, t.expr x.0.left.value), all_seen text.now x.1.now)) result
        (spec.seek c (spec.expr c depth) count (t.expr first.tree.value)
        (all_seen text.now ts.entry.now)) }
{
    let mut left = first;
    let mut rest = ts;
    for turn in 0..count {
        let (a, behind) = climb(alloc, c, depth, 4, left, text, rest)?;
        if let Some((rel, second)) = front_rel(text, behind) {
            let held = count - turn;
            return Ok((
                Found {
                    held,
                    rel,
                    left: a.tree,
                },
                second,
            ));
        }
        let (u, after) = close(alloc, c, depth, a, text, behind)?;
        left = u;
        rest = after;
    }
    let (a, behind) = climb(alloc, c, depth, 4, left, text, rest)?;
    match front_rel(text, behind) {
        Some((rel, second)) => Ok((
            Found {
                held: 0,
                rel,
                left: a.tree,
            },
            second,
        )),
        None => Err(ParseError::Syntax(behind.len())),
    }
}

#[tactic(auto, unfolding(grammar_reading::specs::Reading::compare))]
fn compare<'s>(
    alloc: Global,
    c: Rules,
    text: &[u8],
    ts: &'s [Terminal],
) -> Result<((usize, (Rel, Expr, Expr)), &'s [Terminal]), ParseError>
    ensures { Gives (λ x. ((x.0.0, t.a_test x.0.1), all_seen text.now x.1.now)) result
        (spec.compare c (all_seen text.now ts.entry.now)) }
{
    let depth = usize::from(c.limit);
    let (count, inside) = opens(text, ts);
    let (first, after) = operand(alloc, c, depth, text, inside)?;
    let (found, second) = seek(alloc, c, depth, count, first, text, after)?;
    let (b, rest) = expression(alloc, c, depth, 4, text, second)?;
    let test = (
        found.rel,
        Box::into_inner(found.left),
        Box::into_inner(b.tree),
    );
    Ok(((found.held, test), rest))
}

/// As many of the open parentheses as close here.
fn shut<'s>(text: &[u8], held: usize, ts: &'s [Terminal]) -> (usize, &'s [Terminal])
    ensures count { result.0 ≡ (spec.shut held (all_seen text.now ts.entry.now)).0 }
    ensures behind { all_seen text.now result.1.now
        ≡ (spec.shut held (all_seen text.now ts.entry.now)).1 }
{
    let mut left = held;
    let mut rest = ts;
    'closing: while left > 0 {
        let Some(behind) = after(Symbol::CloseParen, text, rest) else {
            return (left, rest);
        };
        left -= 1;
        rest = behind;
    }
    (left, rest)
}

/// A condition.
pub fn conds<'s>(
    alloc: Global,
    c: Rules,
    text: &[u8],
    ts: &'s [Terminal],
) -> Result<(Tests, &'s [Terminal]), ParseError>
    ensures { Gives (λ x. (t.tests x.0, all_seen text.now x.1.now)) result
        (spec.conds c c.turns 0 [] (all_seen text.now ts.entry.now)) }
{
    let mut tests = Items::new(alloc);
    let mut held = 0;
    let mut rest = ts;
    for _turn in 0..c.turns {
        let ((more, test), behind) = compare(alloc, c, text, rest)?;
        tests.push(test)?;
        let opened: usize = more.checked_add(held).ok_or(ParseError::Memory)?;
        let (left, behind) = shut(text, opened, behind);
        let Some(second) = after(Symbol::AndAnd, text, behind) else {
            if left == 0 {
                return Ok((tests, behind));
            }
            return Err(ParseError::Syntax(behind.len()));
        };
        held = left;
        rest = second;
    }
    Err(ParseError::Syntax(rest.len()))
}
