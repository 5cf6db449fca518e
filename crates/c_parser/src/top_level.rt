//! The top level of a printed function: statements, and tables.

ghost use Rattle.std.specs.Prelude.{◌≡◌};
ghost use Rattle.c_tree.specs.Plain.{no_stmts};
ghost use Rattle.c_tree.specs.Trees as t;
ghost use Rattle.c_tree.specs.Grammar.Heads as head_grammar;
ghost use Rattle.c_tree.specs.Grammar.Statements as grammar;
ghost use Rattle.c_tree.specs.declared.symbol.Symbol.TheVariants as s;
ghost use Rattle.expression_parser.specs.Terminals.{all_seen};
ghost use Rattle.expression_parser.specs.Outcome.{Gives};
ghost use Rattle.grammar_reading.specs.HeadReading as heads;
ghost use Rattle.grammar_reading.specs.UnitReading as spec;
ghost use Rattle.statement_parser.specs.Names.{name_in};

use crate::steps::begins;
use crate::wanted::{Wanted, fixed};
use c_tree::{Stmt, Stmts, Symbol};
use expression_parser::{ParseError, Terminal, full_expression, name_of};
use grammar_reading::Rules;
use sqlite_items::Items;
use statement_parser::{Span, name, statement};
use std::alloc::Global;

/// How high a statement may be.
pub fn statement_limit(printed: bool) -> usize
    ensures { result ≡ grammar.stmt_limit printed }
{
    if printed { 160 } else { 64 }
}

/// What follows the length of a table:
/// `, sizeof(uint64_t)); if (x == 0) { return 1099511627776; }`
fn table_end<'s>(table: Span, text: &[u8], ts: &'s [Terminal]) -> Result<&'s [Terminal], ParseError>
    ensures { Gives (λ r. all_seen text.now r.now) result
        (heads.fixed (head_grammar.table_tokens (name_in text.now table))
        (all_seen text.now ts.entry.now)) }
{
    let tokens = [
        Wanted::Mark(Symbol::Comma),
        Wanted::Word(b"sizeof"),
        Wanted::Mark(Symbol::OpenParen),
        Wanted::Mark(Symbol::Uint64),
        Wanted::Mark(Symbol::CloseParen),
        Wanted::Mark(Symbol::CloseParen),
        Wanted::Mark(Symbol::Semicolon),
        Wanted::Mark(Symbol::If),
        Wanted::Mark(Symbol::OpenParen),
        Wanted::Name(table),
        Wanted::Mark(Symbol::EqualEqual),
        Wanted::Number(0),
        Wanted::Mark(Symbol::CloseParen),
        Wanted::Mark(Symbol::OpenBrace),
        Wanted::Mark(Symbol::Return),
        Wanted::Number(1 << 40),
        Wanted::Mark(Symbol::Semicolon),
        Wanted::Mark(Symbol::CloseBrace),
    ];
    fixed(&tokens, text, ts)
}

/// `uint64_t *x = calloc(n, sizeof(uint64_t));`, and the line behind it.
#[tactic(auto, unfolding(grammar_reading::specs::HeadReading::table_at))]
fn table<'s>(
    alloc: Global,
    c: Rules,
    text: &[u8],
    ts: &'s [Terminal],
) -> Result<(Stmt, &'s [Terminal]), ParseError>
    ensures { Gives (λ x. (t.stmt x.0, all_seen text.now x.1.now)) result
        (heads.table_at c (all_seen text.now ts.entry.now)) }
{
    let front = [Wanted::Mark(Symbol::Uint64), Wanted::Mark(Symbol::Star)];
    let call = [
        Wanted::Mark(Symbol::Assign),
        Wanted::Mark(Symbol::Calloc),
        Wanted::Mark(Symbol::OpenParen),
    ];
    let rest = fixed(&front, text, ts)?;
    let (place, rest) = name(text, rest)?;
    let rest = fixed(&call, text, rest)?;
    let (length, rest) = full_expression(alloc, c, text, rest)?;
    let rest = table_end(place, text, rest)?;
    let name = name_of(alloc, place.word(text))?;
    let length = Box::into_inner(length);
    Ok((Stmt::Table { name, length }, rest))
}

#[tactic(auto, unfolding(grammar_reading::specs::UnitReading::table_of))]
fn lone_table<'s>(
    alloc: Global,
    c: Rules,
    text: &[u8],
    ts: &'s [Terminal],
) -> Result<(Stmts, &'s [Terminal]), ParseError>
    ensures { Gives (λ x. (t.stmts x.0, all_seen text.now x.1.now)) result
        (spec.table_of c (all_seen text.now ts.entry.now)) }
{
    let (table, rest) = table(alloc, c, text, ts)?;
    let mut list = Items::new(alloc);
    list.push(table)?;
    Ok((list, rest))
}

/// A statement or a table.
fn part<'s>(
    alloc: Global,
    c: Rules,
    text: &[u8],
    ts: &'s [Terminal],
) -> Result<(Stmts, &'s [Terminal]), ParseError>
    ensures { Gives (λ x. (t.stmts x.0, all_seen text.now x.1.now)) result
        (spec.top_one c (all_seen text.now ts.entry.now)
        (spec.begins s.Uint64 (all_seen text.now ts.entry.now))) }
{
    if begins(Symbol::Uint64, text, ts) {
        lone_table(alloc, c, text, ts)
    } else {
        statement(alloc, c, statement_limit(c.printed), text, ts)
    }
}

/// Statements and tables up to a directive or a `return`.
#[tactic(auto, using(crate::proofs::Lists::top_ends, crate::proofs::Lists::top_stops, crate::proofs::Lists::top_out))]
pub fn top_level<'s>(
    alloc: Global,
    c: Rules,
    text: &[u8],
    ts: &'s [Terminal],
) -> Result<(Stmts, &'s [Terminal]), ParseError>
    ensures { Gives (λ x. (t.stmts x.0, all_seen text.now x.1.now)) result
        (spec.top c c.turns no_stmts (all_seen text.now ts.entry.now)) }
{
    let mut list = Items::new(alloc);
    let mut rest = ts;
    for _turn in 0..c.turns {
        if begins(Symbol::Directive, text, rest) || begins(Symbol::Return, text, rest) {
            return Ok((list, rest));
        }
        let (more, behind) = part(alloc, c, text, rest)?;
        list.append(more)?;
        rest = behind;
    }
    Err(ParseError::Syntax(rest.len()))
}
