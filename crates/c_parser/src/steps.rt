//! Steps that many rules are made of.

ghost use Rattle.std.specs.Prelude.{◌≡◌};
ghost use Rattle.c_tree.specs.Trees as t;
ghost use Rattle.expression_parser.specs.Terminals.{all_seen};
ghost use Rattle.expression_parser.specs.Outcome.{Gives};
ghost use Rattle.grammar_reading.specs.Blocks as blocks;
ghost use Rattle.grammar_reading.specs.UnitReading as spec;

use c_tree::{Name, Symbol};
use expression_parser::{ParseError, Terminal, after, name_of};
use statement_parser::name;
use std::alloc::Global;

/// Whether the symbol comes first.
pub fn begins(symbol: Symbol, text: &[u8], ts: &[Terminal]) -> bool
    ensures { result ≡ spec.begins symbol (all_seen text.now ts.now) }
{
    after(symbol, text, ts).is_some()
}

/// The name that comes first, by its bytes.
pub fn spelled_name<'s>(
    alloc: Global,
    text: &[u8],
    ts: &'s [Terminal],
) -> Result<(Name, &'s [Terminal]), ParseError>
    ensures { Gives (λ x. (t.word x.0, all_seen text.now x.1.now)) result
        (blocks.name_at (all_seen text.now ts.entry.now)) }
{
    let (place, rest) = name(text, ts)?;
    Ok((name_of(alloc, place.word(text))?, rest))
}
