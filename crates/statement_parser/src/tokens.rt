//! The tokens that statements are made of.

ghost use Rattle.std.specs.Prelude.{◌≡◌, Some, None, option_map};
ghost use Rattle.c_tree.specs.Grammar.Statements as grammar;
ghost use Rattle.expression_parser.specs.Terminals.{all_seen};
ghost use Rattle.expression_parser.specs.Outcome.{Gives};
ghost use Rattle.grammar_reading.specs.Blocks as spec;
ghost use Rattle.grammar_reading.specs.Reading as reading;
ghost use Rattle.statement_parser.specs.Names.{name_in};
ghost use Rattle.c_tree.specs.declared.symbol.Symbol.TheVariants as s;

use c_tree::{BinOp, Rel, Symbol};
use expression_parser::{ParseError, Terminal, after, expect, front_rel, number, word};

/// Where a name stands in a text.
#[derive(Clone, Copy)]
pub struct Span {
    pub start: u32,
    pub end: u32,
}

impl Span {
    /// The bytes of the name.
    pub fn word(self, text: &[u8]) -> &[u8]
        ensures { result.now ≡ name_in text.now self }
    {
        word(text, self.start, self.end)
    }
}

/// The name that comes first.
#[tactic(auto, unfolding(grammar_reading::specs::Blocks::name_at))]
pub fn name<'s>(text: &[u8], ts: &'s [Terminal]) -> Result<(Span, &'s [Terminal]), ParseError>
    ensures { Gives (λ x. (name_in text.now x.0, all_seen text.now x.1.now)) result
        (spec.name_at (all_seen text.now ts.entry.now)) }
{
    match ts {
        [Terminal::Name(start, end), rest @ ..] => Ok((
            Span {
                start: *start,
                end: *end,
            },
            rest,
        )),
        _ => Err(ParseError::Syntax(ts.len())),
    }
}

/// The tokens after this name, if it comes first.
#[tactic(auto, unfolding(grammar_reading::specs::Blocks::this_name))]
pub fn this_name<'s>(
    v: &[u8],
    text: &[u8],
    ts: &'s [Terminal],
) -> Result<&'s [Terminal], ParseError>
    ensures { Gives (λ x. all_seen text.now x.now) result
        (spec.this_name v.now (all_seen text.now ts.entry.now)) }
{
    let (found, rest) = name(text, ts)?;
    if found.word(text) == v {
        Ok(rest)
    } else {
        Err(ParseError::Syntax(ts.len()))
    }
}

/// The tokens after this literal, if it comes first.
#[tactic(auto, unfolding(grammar_reading::specs::Blocks::this_number))]
pub fn this_number<'s>(
    n: u64,
    text: &[u8],
    ts: &'s [Terminal],
) -> Result<&'s [Terminal], ParseError>
    ensures { Gives (λ x. all_seen text.now x.now) result
        (spec.this_number n (all_seen text.now ts.entry.now)) }
{
    let (found, rest) = number(text, ts)?;
    if found == n {
        Ok(rest)
    } else {
        Err(ParseError::Syntax(ts.len()))
    }
}

/// What a mark of assignment does before it assigns.
fn set_op(mark: Symbol) -> Option<Option<BinOp>>
    ensures { result ≡ grammar.set_op mark }
{
    match mark {
        Symbol::Assign => Some(None),
        Symbol::AddAssign => Some(Some(BinOp::Add)),
        Symbol::SubAssign => Some(Some(BinOp::Sub)),
        Symbol::MulAssign => Some(Some(BinOp::Mul)),
        Symbol::AndAssign => Some(Some(BinOp::And)),
        Symbol::OrAssign => Some(Some(BinOp::Or)),
        Symbol::XorAssign => Some(Some(BinOp::Xor)),
        _ => None,
    }
}

/// What the mark of assignment that comes first does before it assigns.
#[tactic(auto, unfolding(grammar_reading::specs::Blocks::set_at))]
pub fn set_mark<'s>(
    text: &[u8],
    ts: &'s [Terminal],
) -> Result<(Option<BinOp>, &'s [Terminal]), ParseError>
    ensures { Gives (λ x. (x.0, all_seen text.now x.1.now)) result
        (spec.set_at (all_seen text.now ts.entry.now)) }
{
    match ts {
        [Terminal::Symbol(mark), rest @ ..] => match set_op(*mark) {
            Some(op) => Ok((op, rest)),
            None => Err(ParseError::Syntax(ts.len())),
        },
        _ => Err(ParseError::Syntax(ts.len())),
    }
}

/// The comparison of a loop's bound.
#[tactic(auto, unfolding(grammar_reading::specs::Blocks::bound_at))]
pub fn bound_mark<'s>(text: &[u8], ts: &'s [Terminal]) -> Result<(Rel, &'s [Terminal]), ParseError>
    ensures { Gives (λ x. (x.0, all_seen text.now x.1.now)) result
        (spec.bound_at (all_seen text.now ts.entry.now)) }
{
    match front_rel(text, ts) {
        Some((Rel::Lt, rest)) => Ok((Rel::Lt, rest)),
        Some((Rel::Le, rest)) => Ok((Rel::Le, rest)),
        _ => Err(ParseError::Syntax(ts.len())),
    }
}

/// What follows `v` in `v++` and `v += 1`.
fn step_behind<'s>(text: &[u8], ts: &'s [Terminal]) -> Result<&'s [Terminal], ParseError>
    ensures { Gives (λ x. all_seen text.now x.now) result
        (spec.step_on (all_seen text.now ts.entry.now)
        (reading.expect s.PlusPlus (all_seen text.now ts.entry.now))) }
{
    if let Some(rest) = after(Symbol::PlusPlus, text, ts) {
        return Ok(rest);
    }
    let rest = expect(Symbol::AddAssign, text, ts)?;
    this_number(1, text, rest)
}

/// The step of a loop over `v`: `++v`, `v++` or `v += 1`.
#[tactic(auto, unfolding(grammar_reading::specs::Blocks::step_at))]
pub fn step<'s>(v: &[u8], text: &[u8], ts: &'s [Terminal]) -> Result<&'s [Terminal], ParseError>
    ensures { Gives (λ x. all_seen text.now x.now) result
        (spec.step_at v.now (all_seen text.now ts.entry.now)) }
{
    if let Some(rest) = after(Symbol::PlusPlus, text, ts) {
        return this_name(v, text, rest);
    }
    let rest = this_name(v, text, ts)?;
    step_behind(text, rest)
}
