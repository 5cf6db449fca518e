//! Trees that aren't too high.

ghost use Rattle.std.specs.Prelude.{◌≡◌, ◌≤◌, ◌+◌, MatchResult};
ghost use Rattle.c_tree.specs.Plain as plain;
ghost use Rattle.c_tree.specs.Trees as t;
ghost use Rattle.expression_parser.specs.Terminals.{all_seen};
ghost use Rattle.c_tree.specs.Grammar.Tables as tables;
ghost use Rattle.c_tree.specs.Grammar.Expressions;
ghost use Rattle.grammar_reading.specs.Reading as spec;
ghost use Rattle.expression_parser.specs.Outcome.{Gives, joined};
ghost use Rattle.expression_parser.specs.Two.{call_of};

use crate::error::ParseError;
use crate::terminal::Terminal;
use c_tree::{BinOp, Expr, Name, OutOfMemory};
use grammar_reading::Rules;
use sqlite_items::Items;
use std::alloc::Global;

/// A tree with its height, in the box that it has in a higher tree.
#[derive(Drop)]
pub struct Built {
    pub tree: Box<Expr>,
    pub height: u16,
    ghost exact: { height ≡ Expressions.height (t.expr tree.value) },
}

pub fn name_of(alloc: Global, word: &[u8]) -> Result<Name, OutOfMemory>
    ensures { MatchResult result (λ n. t.word n ≡ word.now) (λ e. Unit {0}) }
{
    Ok(Name {
        bytes: Items::from_slice(alloc, word)?,
    })
}

/// A tree that has no parts.
pub fn leaf(alloc: Global, tree: Expr) -> Result<Built, OutOfMemory>
    requires { Expressions.height (t.expr tree) ≡ 1 }
    ensures { MatchResult result (λ u. u.tree.value ≡ tree) (λ e. Unit {0}) }
{
    let tree = Box::new(alloc, tree)?;
    Ok(Built { tree, height: 1 })
}

/// A tree whose highest part is `below` high, if the text may have one so high.
#[tactic(auto, unfolding(grammar_reading::specs::Reading::node))]
pub fn node<'s>(
    alloc: Global,
    c: Rules,
    tree: Expr,
    below: u16,
    text: &[u8],
    rest: &'s [Terminal],
) -> Result<(Built, &'s [Terminal]), ParseError>
    requires { Expressions.height (t.expr tree) ≡ below + 1 }
    ensures { Gives (λ x. (t.expr x.0.tree.value, all_seen text.now x.1.now)) result
        (spec.node c (t.expr tree) (all_seen text.now rest.entry.now)) }
{
    let tree = Box::new(alloc, tree)?;
    if below >= c.limit {
        return Err(ParseError::Syntax(rest.len()));
    }
    let height = below + 1;
    Ok((Built { tree, height }, rest))
}

pub fn variable(alloc: Global, x: &[u8]) -> Result<Built, OutOfMemory>
    ensures { MatchResult result (λ u. t.expr u.tree.value ≡ plain.var x.now) (λ e. Unit {0}) }
{
    let name = name_of(alloc, x)?;
    leaf(alloc, Expr::Var(name))
}

pub fn binary<'s>(
    alloc: Global,
    c: Rules,
    op: BinOp,
    a: Built,
    b: Built,
    text: &[u8],
    rest: &'s [Terminal],
) -> Result<(Built, &'s [Terminal]), ParseError>
    ensures { Gives (λ x. (t.expr x.0.tree.value, all_seen text.now x.1.now)) result
        (spec.node c (plain.bin op (t.expr a.tree.value) (t.expr b.tree.value))
        (all_seen text.now rest.entry.now)) }
{
    let below = a.height.max(b.height);
    node(alloc, c, Expr::Bin(op, a.tree, b.tree), below, text, rest)
}

/// A function of two values.
#[derive(Clone, Copy)]
pub enum Two {
    Min,
    Max,
    Least,
    Greatest,
}

fn called(k: Two, a: Box<Expr>, b: Box<Expr>) -> Expr
    ensures { t.expr result ≡ tables.called (call_of k) (t.expr a.value) (t.expr b.value) }
{
    match k {
        Two::Min => Expr::Min(a, b),
        Two::Max => Expr::Max(a, b),
        Two::Least => Expr::Least(a, b),
        Two::Greatest => Expr::Greatest(a, b),
    }
}

/// Whether the text may have it.
pub fn allowed(c: Rules, k: Two) -> bool
    ensures { result ≡ tables.allowed c.printed (call_of k) }
{
    match k {
        Two::Min | Two::Max => true,
        Two::Least | Two::Greatest => c.printed,
    }
}

#[tactic(auto, using(crate::proofs::RowLemmas::called_height))]
pub fn call<'s>(
    alloc: Global,
    c: Rules,
    k: Two,
    a: Built,
    b: Built,
    text: &[u8],
    rest: &'s [Terminal],
) -> Result<(Built, &'s [Terminal]), ParseError>
    ensures { Gives (λ x. (t.expr x.0.tree.value, all_seen text.now x.1.now)) result
        (spec.node c (tables.called (call_of k) (t.expr a.tree.value) (t.expr b.tree.value))
        (all_seen text.now rest.entry.now)) }
{
    let below = a.height.max(b.height);
    node(alloc, c, called(k, a.tree, b.tree), below, text, rest)
}

/// Trees in a row, with the height of the highest.
#[derive(Drop)]
pub struct Row {
    pub trees: Items<Expr>,
    pub height: u16,
    ghost exact: { height ≡ Expressions.heights (t.exprs trees) },
}

pub fn no_trees(alloc: Global) -> Row
    ensures { t.exprs result.trees ≡ plain.no_exprs }
{
    Row {
        trees: Items::new(alloc),
        height: 0,
    }
}

#[tactic(auto, using(crate::proofs::RowLemmas::exprs_push, crate::proofs::RowLemmas::heights_push))]
pub fn with_one_more(row: Row, u: Built) -> Result<Row, ParseError>
    ensures { MatchResult result
        (λ new. t.exprs new.trees
        ≡ joined (t.exprs row.trees) (plain.more_exprs (t.expr u.tree.value) plain.no_exprs))
        (λ e. e ≡ ParseError.Memory) }
{
    let Row { mut trees, height } = row;
    let height = height.max(u.height);
    trees.push(Box::into_inner(u.tree))?;
    Ok(Row { trees, height })
}

pub fn cell<'s>(
    alloc: Global,
    c: Rules,
    x: &[u8],
    us: Row,
    text: &[u8],
    rest: &'s [Terminal],
) -> Result<(Built, &'s [Terminal]), ParseError>
    ensures { Gives (λ r. (t.expr r.0.tree.value, all_seen text.now r.1.now)) result
        (spec.node c (plain.cell x.now (t.exprs us.trees)) (all_seen text.now rest.entry.now)) }
{
    let name = name_of(alloc, x)?;
    node(alloc, c, Expr::Cell(name, us.trees), us.height, text, rest)
}
