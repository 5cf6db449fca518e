//! Runs of tokens that a rule names.

ghost use Rattle.std.specs.Prelude.{◌≡◌, ◌++◌, bytes_eq, decimal};
ghost use Rattle.expression_parser.specs.Terminals.{all_seen};
ghost use Rattle.expression_parser.specs.Outcome.{Gives};
ghost use Rattle.grammar_reading.specs.Blocks as blocks;
ghost use Rattle.grammar_reading.specs.HeadReading as spec;
ghost use Rattle.c_parser.specs.Wanted.{lexeme, lexemes};

use c_tree::Symbol;
use expression_parser::{ParseError, Terminal, expect};
use itoa::Buffer;
use statement_parser::{Span, name, this_name, this_number};

/// A token that a rule names.
#[derive(Clone, Copy)]
pub enum Wanted {
    Mark(Symbol),
    Number(u64),
    Word(&'static [u8]),
    /// The name at this place of the text.
    Name(Span),
    /// A name that ends with an array's number.
    Total(&'static [u8], u64),
}

/// Whether the word is this front with the number behind it.
#[tactic(auto, using(crate::proofs::Fronts::front_is, crate::proofs::Fronts::front_differs))]
fn is_numbered(word: &[u8], front: &[u8], number: u64) -> bool
    ensures { result ≡ bytes_eq word.now (front.now ++ decimal number) }
{
    let mut buffer = Buffer::new();
    let digits = buffer.format(number).as_bytes();
    match word.strip_prefix(front) {
        Some(rest) => rest == digits,
        None => false,
    }
}

#[tactic(auto, unfolding(grammar_reading::specs::Blocks::this_name))]
fn this_total<'s>(
    front: &[u8],
    array: u64,
    text: &[u8],
    ts: &'s [Terminal],
) -> Result<&'s [Terminal], ParseError>
    ensures { Gives (λ r. all_seen text.now r.now) result
        (blocks.this_name (front.now ++ decimal array) (all_seen text.now ts.entry.now)) }
{
    let (place, rest) = name(text, ts)?;
    if is_numbered(place.word(text), front, array) {
        Ok(rest)
    } else {
        Err(ParseError::Syntax(ts.len()))
    }
}

impl Wanted {
    #[tactic(auto, unfolding(grammar_reading::specs::HeadReading::this))]
    fn read<'s>(self, text: &[u8], ts: &'s [Terminal]) -> Result<&'s [Terminal], ParseError>
        ensures { Gives (λ r. all_seen text.now r.now) result
            (spec.this (lexeme text.now self) (all_seen text.now ts.entry.now)) }
    {
        match self {
            Wanted::Mark(symbol) => expect(symbol, text, ts),
            Wanted::Number(n) => this_number(n, text, ts),
            Wanted::Word(wanted) => this_name(wanted, text, ts),
            Wanted::Name(place) => this_name(place.word(text), text, ts),
            Wanted::Total(front, array) => this_total(front, array, text, ts),
        }
    }
}

/// What follows these tokens.
#[tactic(auto, using(crate::proofs::WantedLemmas::fixed_goes_on, crate::proofs::WantedLemmas::fixed_stops, crate::proofs::WantedLemmas::fixed_ends))]
pub fn fixed<'s>(
    tokens: &[Wanted],
    text: &[u8],
    ts: &'s [Terminal],
) -> Result<&'s [Terminal], ParseError>
    ensures { Gives (λ r. all_seen text.now r.now) result
        (spec.fixed (lexemes text.now tokens.now) (all_seen text.now ts.entry.now)) }
{
    let mut rest = ts;
    for token in tokens {
        rest = token.read(text, rest)?;
    }
    Ok(rest)
}
