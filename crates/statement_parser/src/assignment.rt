//! Assignments.

ghost use Rattle.std.specs.Prelude.{◌≡◌, Some, IfOk};
ghost use Rattle.c_tree.specs.Trees as t;
ghost use Rattle.c_tree.specs.Grammar.Statements.{one};
ghost use Rattle.expression_parser.specs.Terminals.{all_seen};
ghost use Rattle.expression_parser.specs.Outcome.{Gives};
ghost use Rattle.grammar_reading.specs.Blocks as spec;

use crate::tokens::{name, set_mark};
use c_tree::{Expr, OutOfMemory, Stmt, Stmts, Symbol};
use expression_parser::{ParseError, Terminal, expect, full_expression, named};
use grammar_reading::Rules;
use sqlite_items::Items;
use std::alloc::Global;

/// The list of this statement alone.
pub fn only(alloc: Global, stmt: Stmt) -> Result<Stmts, OutOfMemory>
    ensures { IfOk result (λ list. t.stmts list ≡ one (t.stmt stmt)) }
{
    let mut list = Items::new(alloc);
    list.push(stmt)?;
    Ok(list)
}

/// The target of an assignment.
#[tactic(auto, unfolding(grammar_reading::specs::Blocks::place))]
fn place<'s>(
    alloc: Global,
    c: Rules,
    text: &[u8],
    ts: &'s [Terminal],
) -> Result<(Box<Expr>, &'s [Terminal]), ParseError>
    ensures { Gives (λ x. (t.expr x.0.value, all_seen text.now x.1.now)) result
        (spec.place c (all_seen text.now ts.entry.now)) }
{
    let (x, rest) = name(text, ts)?;
    let (built, rest) = named(alloc, c, usize::from(c.limit), x.start, x.end, text, rest)?;
    Ok((built.tree, rest))
}

#[tactic(auto, unfolding(grammar_reading::specs::Blocks::assign_at))]
pub fn assignment<'s>(
    alloc: Global,
    c: Rules,
    text: &[u8],
    ts: &'s [Terminal],
) -> Result<(Stmts, &'s [Terminal]), ParseError>
    ensures { Gives (λ x. (t.stmts x.0, all_seen text.now x.1.now)) result
        (spec.assign_at c (all_seen text.now ts.entry.now)) }
{
    let (target, rest) = place(alloc, c, text, ts)?;
    let (op, rest) = set_mark(text, rest)?;
    let (value, rest) = full_expression(alloc, c, text, rest)?;
    let rest = expect(Symbol::Semicolon, text, rest)?;
    let stmt = Stmt::Assign {
        target: Box::into_inner(target),
        op,
        value: Box::into_inner(value),
    };
    Ok((only(alloc, stmt)?, rest))
}
