//! Expressions and conditions.

ghost use Rattle.std.specs.Prelude.{◌≡◌, ◌<◌, ℕ, [], Some, None, IfOk};
ghost use Rattle.c_tree.specs.Plain.{PlainExpr};
ghost use Rattle.c_tree.specs.Trees as t;
ghost use Rattle.expression_parser.specs.Terminals.{all_seen, word_at};
ghost use Rattle.c_tree.specs.Grammar.Expressions.{IsLow, limit};
ghost use Rattle.grammar_reading.specs.Reading as spec;
ghost use Rattle.expression_parser.specs.Outcome.{Gives};
ghost use Rattle.expression_parser.specs.Two.{call_of};

use crate::build::{self, Built, Row, Two, leaf, node};
use crate::error::ParseError;
use crate::steps::{after, expect, front_op, front_rel, level, limit, number, opens, paren};
use crate::terminal::Terminal;
use c_tree::{Expr, Symbol, UnOp};
use grammar_reading::Rules;
use std::alloc::Global;

#[tactic(auto, unfolding(grammar_reading::specs::Reading::whole))]
fn whole(alloc: Global, c: Rules, text: &[u8], ts: &[Terminal]) -> Result<Built, ParseError>
    ensures { Gives (λ x. t.expr x.tree.value) result (spec.whole c (all_seen text.now ts.now)) }
{
    let (u, rest) = expression(alloc, c, usize::from(c.limit), 1, text, ts)?;
    match rest {
        [] => Ok(u),
        [_, ..] => Err(ParseError::Syntax(rest.len())),
    }
}

/// An expression whose operators bind at least so tightly. `depth` bounds the height of the tree.
#[cycle(parser)]
#[tactic(auto, unfolding(grammar_reading::specs::Reading::expr))]
pub fn expression<'s>(
    alloc: Global,
    c: Rules,
    depth: usize,
    low: u8,
    text: &[u8],
    ts: &'s [Terminal],
) -> Result<(Built, &'s [Terminal]), ParseError>
    ensures { Gives (λ x. (t.expr x.0.tree.value, all_seen text.now x.1.now)) result
        (spec.expr c depth low (all_seen text.now ts.entry.now)) }
{
    if depth == 0 {
        return Err(ParseError::Syntax(ts.len()));
    }
    let (count, inside) = opens(text, ts);
    let (first, after) = operand(alloc, c, depth - 1, text, inside)?;
    let (left, rest) = closes(alloc, c, depth - 1, count, first, text, after)?;
    climb(alloc, c, depth - 1, low, left, text, rest)
}

#[cycle(parser)]
#[tactic(auto, unfolding(grammar_reading::specs::Reading::close))]
pub fn close<'s>(
    alloc: Global,
    c: Rules,
    depth: usize,
    left: Built,
    text: &[u8],
    ts: &'s [Terminal],
) -> Result<(Built, &'s [Terminal]), ParseError>
    ensures { Gives (λ x. (t.expr x.0.tree.value, all_seen text.now x.1.now)) result
        (spec.close c (spec.expr c depth) (t.expr left.tree.value)
        (all_seen text.now ts.entry.now)) }
{
    let (u, behind) = climb(alloc, c, depth, 1, left, text, ts)?;
    let rest = expect(Symbol::CloseParen, text, behind)?;
    Ok((u, rest))
}

#[cycle(parser)]
fn closes<'s>(
    alloc: Global,
    c: Rules,
    depth: usize,
    count: usize,
    first: Built,
    text: &[u8],
    ts: &'s [Terminal],
) -> Result<(Built, &'s [Terminal]), ParseError>
    ensures { Gives (λ x. (t.expr x.0.tree.value, all_seen text.now x.1.now)) result
        (spec.closes c (spec.expr c depth) count (t.expr first.tree.value)
        (all_seen text.now ts.entry.now)) }
{
    let mut left = first;
    let mut rest = ts;
    for _turn in 0..count {
        let (whole, behind) = close(alloc, c, depth, left, text, rest)?;
        left = whole;
        rest = behind;
    }
    Ok((left, rest))
}

#[cycle(parser)]
pub fn climb<'s>(
    alloc: Global,
    c: Rules,
    depth: usize,
    low: u8,
    first: Built,
    text: &[u8],
    ts: &'s [Terminal],
) -> Result<(Built, &'s [Terminal]), ParseError>
    ensures { Gives (λ x. (t.expr x.0.tree.value, all_seen text.now x.1.now)) result
        (spec.climb c (spec.expr c depth) low c.turns (t.expr first.tree.value)
        (all_seen text.now ts.entry.now)) }
{
    let mut left = first;
    let mut rest = ts;
    for _turn in 0..c.turns {
        let Some((op, behind)) = front_op(text, rest) else {
            return Ok((left, rest));
        };
        if level(op) < low {
            return Ok((left, rest));
        }
        let (right, behind) = expression(alloc, c, depth, level(op) + 1, text, behind)?;
        let (whole, behind) = build::binary(alloc, c, op, left, right, text, behind)?;
        left = whole;
        rest = behind;
    }
    Err(ParseError::Syntax(rest.len()))
}

#[cycle(parser)]
#[tactic(auto, unfolding(grammar_reading::specs::Reading::operand))]
pub fn operand<'s>(
    alloc: Global,
    c: Rules,
    depth: usize,
    text: &[u8],
    ts: &'s [Terminal],
) -> Result<(Built, &'s [Terminal]), ParseError>
    ensures { Gives (λ x. (t.expr x.0.tree.value, all_seen text.now x.1.now)) result
        (spec.operand c (spec.expr c depth) (spec.lower c depth) (all_seen text.now ts.entry.now)) }
{
    match ts {
        [Terminal::Literal(n), rest @ ..] => Ok((leaf(alloc, Expr::Lit(*n))?, rest)),
        [Terminal::Name(start, end), rest @ ..] => named(alloc, c, depth, *start, *end, text, rest),
        [Terminal::Symbol(sign), rest @ ..] => signed(alloc, c, depth, *sign, text, rest),
        [] => Err(ParseError::Syntax(0)),
    }
}

#[cycle(parser)]
fn signed<'s>(
    alloc: Global,
    c: Rules,
    depth: usize,
    sign: Symbol,
    text: &[u8],
    ts: &'s [Terminal],
) -> Result<(Built, &'s [Terminal]), ParseError>
    ensures { Gives (λ x. (t.expr x.0.tree.value, all_seen text.now x.1.now)) result
        (spec.signed c (spec.expr c depth) (spec.lower c depth) sign
        (all_seen text.now ts.entry.now)) }
{
    match sign {
        Symbol::Minus => applied(alloc, c, depth, UnOp::Neg, text, ts),
        Symbol::Tilde => applied(alloc, c, depth, UnOp::Inv, text, ts),
        Symbol::Umin => call(alloc, c, depth, Two::Min, text, ts),
        Symbol::Umax => call(alloc, c, depth, Two::Max, text, ts),
        Symbol::BalMin => call(alloc, c, depth, Two::Least, text, ts),
        Symbol::BalMax => call(alloc, c, depth, Two::Greatest, text, ts),
        Symbol::BalWide => wide(alloc, c, text, ts),
        Symbol::OpenParen => converted(alloc, c, depth, text, ts),
        _ => Err(ParseError::Syntax(ts.len())),
    }
}

#[cycle(parser)]
fn applied<'s>(
    alloc: Global,
    c: Rules,
    depth: usize,
    op: UnOp,
    text: &[u8],
    ts: &'s [Terminal],
) -> Result<(Built, &'s [Terminal]), ParseError>
    ensures { Gives (λ x. (t.expr x.0.tree.value, all_seen text.now x.1.now)) result
        (spec.applied c (spec.expr c depth) op (all_seen text.now ts.entry.now)) }
{
    let (a, rest) = expression(alloc, c, depth, 7, text, ts)?;
    node(alloc, c, Expr::Un(op, a.tree), a.height, text, rest)
}

#[cycle(parser)]
#[tactic(auto, unfolding(grammar_reading::specs::Reading::two))]
fn two<'s>(
    alloc: Global,
    c: Rules,
    depth: usize,
    k: Two,
    text: &[u8],
    ts: &'s [Terminal],
) -> Result<(Built, &'s [Terminal]), ParseError>
    ensures { Gives (λ x. (t.expr x.0.tree.value, all_seen text.now x.1.now)) result
        (spec.two c (spec.expr c depth) (call_of k) (all_seen text.now ts.entry.now)) }
{
    let inside = expect(Symbol::OpenParen, text, ts)?;
    let (a, comma) = expression(alloc, c, depth, 1, text, inside)?;
    let second = expect(Symbol::Comma, text, comma)?;
    let (b, close) = expression(alloc, c, depth, 1, text, second)?;
    let rest = expect(Symbol::CloseParen, text, close)?;
    build::call(alloc, c, k, a, b, text, rest)
}

#[cycle(parser)]
fn call<'s>(
    alloc: Global,
    c: Rules,
    depth: usize,
    k: Two,
    text: &[u8],
    ts: &'s [Terminal],
) -> Result<(Built, &'s [Terminal]), ParseError>
    ensures { Gives (λ x. (t.expr x.0.tree.value, all_seen text.now x.1.now)) result
        (spec.call c (spec.expr c depth) (call_of k) (all_seen text.now ts.entry.now)) }
{
    if build::allowed(c, k) {
        two(alloc, c, depth, k, text, ts)
    } else {
        Err(ParseError::Syntax(ts.len()))
    }
}

#[tactic(auto, unfolding(grammar_reading::specs::Reading::wide_parts))]
fn wide<'s>(
    alloc: Global,
    c: Rules,
    text: &[u8],
    ts: &'s [Terminal],
) -> Result<(Built, &'s [Terminal]), ParseError>
    ensures { (depth : ℕ) → Gives (λ x. (t.expr x.0.tree.value, all_seen text.now x.1.now)) result
        (spec.wide c (spec.expr c depth) (all_seen text.now ts.entry.now)) }
{
    if !c.printed {
        return Err(ParseError::Syntax(ts.len()));
    }
    let first = expect(Symbol::OpenParen, text, ts)?;
    let (high, comma) = number(text, first)?;
    let second = expect(Symbol::Comma, text, comma)?;
    let (low, close) = number(text, second)?;
    let rest = expect(Symbol::CloseParen, text, close)?;
    Ok((leaf(alloc, Expr::Big(high, low))?, rest))
}

#[cycle(parser)]
fn converted<'s>(
    alloc: Global,
    c: Rules,
    depth: usize,
    text: &[u8],
    ts: &'s [Terminal],
) -> Result<(Built, &'s [Terminal]), ParseError>
    ensures { Gives (λ x. (t.expr x.0.tree.value, all_seen text.now x.1.now)) result
        (spec.converted c (spec.expr c depth) (spec.lower c depth)
        (all_seen text.now ts.entry.now)) }
{
    match after(Symbol::Uint64, text, ts) {
        Some(word) => word_cast(alloc, c, depth, text, word),
        None => wide_cast(alloc, c, depth, text, ts),
    }
}

#[cycle(parser)]
#[tactic(auto, unfolding(grammar_reading::specs::Reading::wide_parts_cast))]
fn wide_cast<'s>(
    alloc: Global,
    c: Rules,
    depth: usize,
    text: &[u8],
    ts: &'s [Terminal],
) -> Result<(Built, &'s [Terminal]), ParseError>
    ensures { Gives (λ x. (t.expr x.0.tree.value, all_seen text.now x.1.now)) result
        (spec.wide_cast c (spec.expr c depth) (all_seen text.now ts.entry.now)) }
{
    if !c.printed {
        return Err(ParseError::Syntax(ts.len()));
    }
    let doubled = expect(Symbol::Unsigned, text, ts)?;
    let close = expect(Symbol::Int128, text, doubled)?;
    let inner = expect(Symbol::CloseParen, text, close)?;
    let (u, rest) = expression(alloc, c, depth, 7, text, inner)?;
    node(alloc, c, Expr::Widen(u.tree), u.height, text, rest)
}

#[cycle(parser)]
#[tactic(auto, unfolding(grammar_reading::specs::Reading::word_cast))]
fn word_cast<'s>(
    alloc: Global,
    c: Rules,
    depth: usize,
    text: &[u8],
    ts: &'s [Terminal],
) -> Result<(Built, &'s [Terminal]), ParseError>
    ensures { Gives (λ x. (t.expr x.0.tree.value, all_seen text.now x.1.now)) result
        (spec.word_cast c (spec.expr c depth) (spec.lower c depth)
        (all_seen text.now ts.entry.now)) }
{
    let inner = expect(Symbol::CloseParen, text, ts)?;
    match paren(text, inner) {
        Some(inside) => grouped(alloc, c, depth, text, inside),
        None => {
            let (u, rest) = expression(alloc, c, depth, 7, text, inner)?;
            node(alloc, c, Expr::Cast(u.tree), u.height, text, rest)
        }
    }
}

/// What stands in the parentheses behind a cast: a comparison or an operand.
#[cycle(parser)]
#[tactic(auto, unfolding(grammar_reading::specs::Reading::grouped))]
fn grouped<'s>(
    alloc: Global,
    c: Rules,
    depth: usize,
    text: &[u8],
    ts: &'s [Terminal],
) -> Result<(Built, &'s [Terminal]), ParseError>
    ensures { Gives (λ x. (t.expr x.0.tree.value, all_seen text.now x.1.now)) result
        (spec.grouped c (spec.expr c depth) (spec.lower c depth) (all_seen text.now ts.entry.now)) }
{
    let (a, rest) = expression(alloc, c, depth, 4, text, ts)?;
    match front_rel(text, rest) {
        Some((rel, second)) => {
            let (b, behind) = expression(alloc, c, depth, 4, text, second)?;
            let rest = expect(Symbol::CloseParen, text, behind)?;
            let below = a.height.max(b.height);
            node(alloc, c, Expr::Test(rel, a.tree, b.tree), below, text, rest)
        }
        None => lone(alloc, c, depth, a, text, rest),
    }
}

#[cycle(parser)]
#[tactic(auto, unfolding(grammar_reading::specs::Reading::expr))]
fn lone<'s>(
    alloc: Global,
    c: Rules,
    depth: usize,
    a: Built,
    text: &[u8],
    ts: &'s [Terminal],
) -> Result<(Built, &'s [Terminal]), ParseError>
    requires { 0 < depth }
    ensures { Gives (λ x. (t.expr x.0.tree.value, all_seen text.now x.1.now)) result
        (spec.grouped_by c (spec.expr c depth) (spec.lower c depth) (t.expr a.tree.value)
        (all_seen text.now ts.entry.now) None) }
{
    let (u, rest) = close(alloc, c, depth - 1, a, text, ts)?;
    node(alloc, c, Expr::Cast(u.tree), u.height, text, rest)
}

#[cycle(parser)]
pub fn named<'s>(
    alloc: Global,
    c: Rules,
    depth: usize,
    start: u32,
    end: u32,
    text: &[u8],
    ts: &'s [Terminal],
) -> Result<(Built, &'s [Terminal]), ParseError>
    ensures { Gives (λ r. (t.expr r.0.tree.value, all_seen text.now r.1.now)) result
        (spec.named c (spec.expr c depth) (word_at text.now start end)
        (all_seen text.now ts.entry.now)) }
{
    match after(Symbol::OpenBracket, text, ts) {
        None => Ok((build::variable(alloc, word(text, start, end))?, ts)),
        Some(_) => {
            let (us, rest) = cells(alloc, c, depth, text, ts)?;
            build::cell(alloc, c, word(text, start, end), us, text, rest)
        }
    }
}

/// The bytes from one place to another, none where that lies outside.
pub fn word(text: &[u8], start: u32, end: u32) -> &[u8]
    ensures { result.now ≡ word_at text.now start end }
{
    let from = start as usize;
    let to = end as usize;
    if from <= to && to <= text.len() {
        &text[from..to]
    } else {
        &[]
    }
}

#[cycle(parser)]
#[tactic(auto, unfolding(grammar_reading::specs::Reading::one_cell))]
fn one_cell<'s>(
    alloc: Global,
    c: Rules,
    depth: usize,
    text: &[u8],
    ts: &'s [Terminal],
) -> Result<(Built, &'s [Terminal]), ParseError>
    ensures { Gives (λ r. (t.expr r.0.tree.value, all_seen text.now r.1.now)) result
        (spec.one_cell c (spec.expr c depth) (all_seen text.now ts.entry.now)) }
{
    let inside = expect(Symbol::OpenBracket, text, ts)?;
    let (u, close) = expression(alloc, c, depth, 1, text, inside)?;
    let rest = expect(Symbol::CloseBracket, text, close)?;
    Ok((u, rest))
}

#[cycle(parser)]
fn cells<'s>(
    alloc: Global,
    c: Rules,
    depth: usize,
    text: &[u8],
    ts: &'s [Terminal],
) -> Result<(Row, &'s [Terminal]), ParseError>
    ensures { Gives (λ r. (t.exprs r.0.trees, all_seen text.now r.1.now)) result
        (spec.cells c (spec.expr c depth) c.turns (all_seen text.now ts.entry.now)) }
{
    let mut row = build::no_trees(alloc);
    let mut rest = ts;
    for _turn in 0..c.turns {
        let (u, behind) = one_cell(alloc, c, depth, text, rest)?;
        row = build::with_one_more(row, u)?;
        rest = behind;
        if after(Symbol::OpenBracket, text, rest).is_none() {
            return Ok((row, rest));
        }
    }
    Err(ParseError::Syntax(rest.len()))
}

/// An expression that is as high as the text may have one.
pub fn full_expression<'s>(
    alloc: Global,
    c: Rules,
    text: &[u8],
    ts: &'s [Terminal],
) -> Result<(Box<Expr>, &'s [Terminal]), ParseError>
    ensures { Gives (λ x. (t.expr x.0.value, all_seen text.now x.1.now)) result
        (spec.expr c c.limit 1 (all_seen text.now ts.entry.now)) }
{
    let (built, rest) = expression(alloc, c, usize::from(c.limit), 1, text, ts)?;
    Ok((built.tree, rest))
}

/// The tree of the tokens, all of them.
pub fn parse_expression(
    alloc: Global,
    printed: bool,
    text: &[u8],
    ts: &[Terminal],
) -> Result<Expr, ParseError>
    // What is answered is in the grammar.
    ensures found { IfOk result
        (λ e. IsLow printed (limit printed) 1 (all_seen text.now ts.now) (t.expr e) []) }
    // Whatever is in the grammar is answered, unless memory runs out.
    ensures only { (u : PlainExpr) → IsLow printed (limit printed) 1 (all_seen text.now ts.now) u []
        → Gives t.expr result (Some u) }
{
    let turns = ts.len() + 1;
    let built = whole(
        alloc,
        Rules {
            printed,
            limit: limit(printed),
            turns,
        },
        text,
        ts,
    )?;
    Ok(Box::into_inner(built.tree))
}
