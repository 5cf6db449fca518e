//! The verdict of a printed text, and the arrays that it and the checks speak of.

ghost use Rattle.std.specs.Prelude.{◌≡◌, ◌+◌, ◌<◌, ◌^◌, length, map};
ghost use Rattle.c_tree.specs.Grammar.Units as grammar;
ghost use Rattle.c_tree.specs.Names.{arrays_in};
ghost use Rattle.c_tree.specs.Trees as t;
ghost use Rattle.expression_parser.specs.Terminals.{all_seen};
ghost use Rattle.expression_parser.specs.Outcome.{Gives};
ghost use Rattle.grammar_reading.specs.HeadReading as heads;
ghost use Rattle.grammar_reading.specs.UnitReading as spec;

use crate::wanted::{Wanted, fixed};
use c_tree::{Param, Symbol};
use expression_parser::{ParseError, Terminal, expect};

/// How many parameters are arrays.
pub fn arrays_among(params: &[Param]) -> usize
    ensures { result ≡ length (arrays_in (map t.param params.now)) }
{
    let mut arrays = 0;
    for param in params {
        if matches!(param, Param::Array { .. }) {
            arrays += 1;
        }
    }
    arrays
}

/// `(uint64_t)(bal_def0 != bal_use0) << 0` for an array's number.
fn pair<'s>(array: u64, text: &[u8], ts: &'s [Terminal]) -> Result<&'s [Terminal], ParseError>
    ensures { Gives (λ r. all_seen text.now r.now) result
        (heads.fixed (grammar.pair_tokens array) (all_seen text.now ts.entry.now)) }
{
    let tokens = [
        Wanted::Mark(Symbol::OpenParen),
        Wanted::Mark(Symbol::Uint64),
        Wanted::Mark(Symbol::CloseParen),
        Wanted::Mark(Symbol::OpenParen),
        Wanted::Total(b"bal_def", array),
        Wanted::Mark(Symbol::NotEqual),
        Wanted::Total(b"bal_use", array),
        Wanted::Mark(Symbol::CloseParen),
        Wanted::Mark(Symbol::ShiftLeft),
        Wanted::Number(array),
    ];
    fixed(&tokens, text, ts)
}

/// A pair for each array, with `|` between them; `0` for no array.
#[tactic(auto, using(crate::proofs::Pairs::totals_none, crate::proofs::Pairs::totals_some, crate::proofs::Pairs::pairs_at, crate::proofs::Pairs::pairs_end))]
fn totals<'s>(arrays: usize, text: &[u8], ts: &'s [Terminal]) -> Result<&'s [Terminal], ParseError>
    ensures { Gives (λ r. all_seen text.now r.now) result
        (spec.totals_at arrays (all_seen text.now ts.entry.now)) }
{
    if arrays == 0 {
        return fixed(&[Wanted::Number(0)], text, ts);
    }
    let mut rest = pair(0, text, ts)?;
    for array in 1..arrays {
        let next = expect(Symbol::Bar, text, rest)?;
        rest = pair(array as u64, text, next)?;
    }
    Ok(rest)
}

/// The last statement of a printed function with so many arrays.
#[tactic(auto, unfolding(grammar_reading::specs::UnitReading::verdict_at))]
pub fn verdict<'s>(
    arrays: usize,
    text: &[u8],
    ts: &'s [Terminal],
) -> Result<&'s [Terminal], ParseError>
    ensures { Gives (λ r. all_seen text.now r.now) result
        (spec.verdict_at arrays (all_seen text.now ts.entry.now)) }
{
    let value = expect(Symbol::Return, text, ts)?;
    let close = totals(arrays, text, value)?;
    expect(Symbol::Semicolon, text, close)
}
