//! The heads of loops.

ghost use Rattle.std.specs.Prelude.{◌≡◌, Some, IfOk};
ghost use Rattle.c_tree.specs.Plain as plain;
ghost use Rattle.c_tree.specs.Trees as t;
ghost use Rattle.c_tree.specs.Grammar.Statements.{one};
ghost use Rattle.expression_parser.specs.Terminals.{all_seen};
ghost use Rattle.expression_parser.specs.Outcome.{Gives};
ghost use Rattle.grammar_reading.specs.Blocks as spec;
ghost use Rattle.grammar_reading.specs.declared.rules.Rules.{Rules};
ghost use Rattle.statement_parser.specs.Names.{name_in};

use crate::assignment::only;
use crate::tokens::{Span, bound_mark, name, step, this_name};
use c_tree::{Expr, OutOfMemory, Rel, Stmt, Stmts, Symbol};
use expression_parser::{ParseError, Terminal, expect, full_expression, name_of};
use grammar_reading::Rules;
use std::alloc::Global;

/// The variable of a loop, and where it starts.
#[derive(Drop)]
pub struct Start {
    pub var: Span,
    pub lo: Box<Expr>,
}

/// Where a loop ends.
#[derive(Drop)]
pub struct Bound {
    pub rel: Rel,
    pub hi: Box<Expr>,
}

#[tactic(auto, unfolding(grammar_reading::specs::Blocks::for_start))]
pub fn for_start<'s>(
    alloc: Global,
    c: Rules,
    text: &[u8],
    ts: &'s [Terminal],
) -> Result<(Start, &'s [Terminal]), ParseError>
    ensures { Gives
        (λ x. ((name_in text.now x.0.var, t.expr x.0.lo.value), all_seen text.now x.1.now)) result
        (spec.for_start c (all_seen text.now ts.entry.now)) }
{
    let rest = expect(Symbol::OpenParen, text, ts)?;
    let rest = expect(Symbol::Int64, text, rest)?;
    let (var, rest) = name(text, rest)?;
    let rest = expect(Symbol::Assign, text, rest)?;
    let (lo, rest) = full_expression(alloc, c, text, rest)?;
    let rest = expect(Symbol::Semicolon, text, rest)?;
    Ok((Start { var, lo }, rest))
}

#[tactic(auto, unfolding(grammar_reading::specs::Blocks::for_bound))]
pub fn for_bound<'s>(
    alloc: Global,
    c: Rules,
    v: &[u8],
    text: &[u8],
    ts: &'s [Terminal],
) -> Result<(Bound, &'s [Terminal]), ParseError>
    ensures { Gives (λ x. ((x.0.rel, t.expr x.0.hi.value), all_seen text.now x.1.now)) result
        (spec.for_bound c v.now (all_seen text.now ts.entry.now)) }
{
    let rest = this_name(v, text, ts)?;
    let (rel, rest) = bound_mark(text, rest)?;
    let (hi, rest) = full_expression(alloc, c, text, rest)?;
    let rest = expect(Symbol::Semicolon, text, rest)?;
    Ok((Bound { rel, hi }, rest))
}

#[tactic(auto, unfolding(grammar_reading::specs::Blocks::for_step))]
pub fn for_step<'s>(v: &[u8], text: &[u8], ts: &'s [Terminal]) -> Result<&'s [Terminal], ParseError>
    ensures { (c : Rules) → Gives (λ x. all_seen text.now x.now) result
        (spec.for_step c v.now (all_seen text.now ts.entry.now)) }
{
    let rest = step(v, text, ts)?;
    expect(Symbol::CloseParen, text, rest)
}

pub fn loop_of(
    alloc: Global,
    text: &[u8],
    start: Start,
    bound: Bound,
    body: Stmts,
) -> Result<Stmts, OutOfMemory>
    ensures { IfOk result
        (λ list. t.stmts list ≡ one
        (plain.loop (name_in text.now start.var) (t.expr start.lo.value)
        bound.rel (t.expr bound.hi.value) (t.stmts body))) }
{
    let var = name_of(alloc, start.var.word(text))?;
    let stmt = Stmt::For {
        var,
        lo: Box::into_inner(start.lo),
        rel: bound.rel,
        hi: Box::into_inner(bound.hi),
        body,
    };
    only(alloc, stmt)
}
