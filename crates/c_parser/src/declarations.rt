//! Declarations of words and wide words.

ghost use Rattle.std.specs.Prelude.{◌≡◌, []};
ghost use Rattle.c_tree.specs.Names as names;
ghost use Rattle.c_tree.specs.Trees as t;
ghost use Rattle.expression_parser.specs.Terminals.{all_seen};
ghost use Rattle.expression_parser.specs.Outcome.{Gives};
ghost use Rattle.grammar_reading.specs.HeadReading as heads;
ghost use Rattle.grammar_reading.specs.UnitReading as spec;
ghost use Rattle.c_parser.specs.Seen as seen;

use crate::steps::begins;
use crate::wanted::{Wanted, fixed};
use c_tree::{Name, NameList, Symbol, Words};
use expression_parser::{ParseError, Terminal, after, expect, name_of, number};
use grammar_reading::Rules;
use sqlite_items::Items;
use statement_parser::name;
use std::alloc::Global;

/// Whether a declaration of a word begins here. A table begins with `uint64_t` too, and goes on with
/// `*`.
#[tactic(auto, unfolding(grammar_reading::specs::UnitReading::declaration_begins, grammar_reading::specs::Blocks::name_at))]
fn begins_word(text: &[u8], ts: &[Terminal]) -> bool
    ensures { result ≡ spec.declaration_begins (all_seen text.now ts.now) }
{
    match after(Symbol::Uint64, text, ts) {
        Some([Terminal::Name(..), ..]) => true,
        _ => false,
    }
}

/// `uint64_t x = 1;`
#[tactic(auto, unfolding(grammar_reading::specs::UnitReading::declaration_at))]
fn declaration<'s>(
    alloc: Global,
    text: &[u8],
    ts: &'s [Terminal],
) -> Result<((Name, u64), &'s [Terminal]), ParseError>
    ensures { Gives (λ x. (seen.declaration x.0, all_seen text.now x.1.now)) result
        (spec.declaration_at (all_seen text.now ts.entry.now)) }
{
    let rest = expect(Symbol::Uint64, text, ts)?;
    let (place, rest) = name(text, rest)?;
    let rest = expect(Symbol::Assign, text, rest)?;
    let (n, rest) = number(text, rest)?;
    let rest = expect(Symbol::Semicolon, text, rest)?;
    let declared = name_of(alloc, place.word(text))?;
    Ok(((declared, n), rest))
}

/// All declarations of words.
#[tactic(auto, using(crate::proofs::Lists::many_ends, crate::proofs::Lists::many_stops, crate::proofs::Lists::many_out))]
pub fn words<'s>(
    alloc: Global,
    c: Rules,
    text: &[u8],
    ts: &'s [Terminal],
) -> Result<(Words, &'s [Terminal]), ParseError>
    ensures { Gives (λ x. (seen.declarations x.0, all_seen text.now x.1.now)) result
        (spec.words c.turns [] (all_seen text.now ts.entry.now)) }
{
    let mut words = Items::new(alloc);
    let mut rest = ts;
    for _turn in 0..c.turns {
        if !begins_word(text, rest) {
            return Ok((words, rest));
        }
        let (declared, behind) = declaration(alloc, text, rest)?;
        words.push(declared)?;
        rest = behind;
    }
    Err(ParseError::Syntax(rest.len()))
}

/// `unsigned __int128 x = 0;`
#[tactic(auto, unfolding(grammar_reading::specs::HeadReading::wide_at))]
fn wide<'s>(
    alloc: Global,
    text: &[u8],
    ts: &'s [Terminal],
) -> Result<(Name, &'s [Terminal]), ParseError>
    ensures { Gives (λ x. (t.word x.0, all_seen text.now x.1.now)) result
        (heads.wide_at (all_seen text.now ts.entry.now)) }
{
    let front = [Wanted::Mark(Symbol::Unsigned), Wanted::Mark(Symbol::Int128)];
    let zero = [
        Wanted::Mark(Symbol::Assign),
        Wanted::Number(0),
        Wanted::Mark(Symbol::Semicolon),
    ];
    let rest = fixed(&front, text, ts)?;
    let (place, rest) = name(text, rest)?;
    let rest = fixed(&zero, text, rest)?;
    let declared = name_of(alloc, place.word(text))?;
    Ok((declared, rest))
}

/// All declarations of wide words.
#[tactic(auto, using(crate::proofs::Lists::many_ends, crate::proofs::Lists::many_stops, crate::proofs::Lists::many_out))]
pub fn wides<'s>(
    alloc: Global,
    c: Rules,
    text: &[u8],
    ts: &'s [Terminal],
) -> Result<(NameList, &'s [Terminal]), ParseError>
    ensures { Gives (λ x. (names.words x.0, all_seen text.now x.1.now)) result
        (spec.wides c.turns [] (all_seen text.now ts.entry.now)) }
{
    let mut wides = Items::new(alloc);
    let mut rest = ts;
    for _turn in 0..c.turns {
        if !begins(Symbol::Unsigned, text, rest) {
            return Ok((wides, rest));
        }
        let (declared, behind) = wide(alloc, text, rest)?;
        wides.push(declared)?;
        rest = behind;
    }
    Err(ParseError::Syntax(rest.len()))
}
