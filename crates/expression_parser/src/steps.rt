//! The steps that every rule is made of.

ghost use Rattle.std.specs.Prelude.{◌≡◌, ◌<◌, Some, None, MatchOption, IfSome, option_map, drop, length};
ghost use Rattle.c_tree.specs.Grammar.Tables as tables;
ghost use Rattle.expression_parser.specs.Terminals.{all_seen};
ghost use Rattle.c_tree.specs.Grammar.Expressions as grammar;
ghost use Rattle.grammar_reading.specs.Reading as spec;
ghost use Rattle.expression_parser.specs.Outcome.{Gives};

use crate::error::ParseError;
use crate::terminal::Terminal;
use c_tree::{BinOp, Rel, Symbol, ops};

#[tactic(auto, unfolding(grammar_reading::specs::Reading::same))]
fn same_sign(a: Symbol, b: Symbol) -> bool
    ensures { result ≡ spec.same a b }
{
    a == b
}

/// How high an expression may be.
pub fn limit(printed: bool) -> u16
    ensures { result ≡ grammar.limit printed }
{
    if printed { 256 } else { 64 }
}

/// The tokens after the sign, if it comes first.
#[tactic(auto, unfolding(grammar_reading::specs::Reading::expect))]
pub fn after<'s>(sign: Symbol, text: &[u8], ts: &'s [Terminal]) -> Option<&'s [Terminal]>
    ensures value { option_map (λ r. all_seen text.now r.now) result
        ≡ spec.expect sign (all_seen text.now ts.entry.now) }
    ensures shorter { IfSome result (λ r. length r.now < length ts.entry.now) }
{
    match ts {
        [Terminal::Symbol(first), rest @ ..] if same_sign(*first, sign) => Some(rest),
        _ => None,
    }
}

pub fn expect<'s>(
    sign: Symbol,
    text: &[u8],
    ts: &'s [Terminal],
) -> Result<&'s [Terminal], ParseError>
    ensures { Gives (λ r. all_seen text.now r.now) result
        (spec.expect sign (all_seen text.now ts.entry.now)) }
{
    match after(sign, text, ts) {
        Some(rest) => Ok(rest),
        None => Err(ParseError::Syntax(ts.len())),
    }
}

#[tactic(auto, unfolding(grammar_reading::specs::Reading::number_at))]
pub fn number<'s>(text: &[u8], ts: &'s [Terminal]) -> Result<(u64, &'s [Terminal]), ParseError>
    ensures { Gives (λ r. (r.0, all_seen text.now r.1.now)) result
        (spec.number_at (all_seen text.now ts.entry.now)) }
{
    match ts {
        [Terminal::Literal(n), rest @ ..] => Ok((*n, rest)),
        _ => Err(ParseError::Syntax(ts.len())),
    }
}

macro_rules! level_of {
    ([$op:expr] $($name:ident $level:literal $symbol:ident $mark:literal $value:tt)*) => {
        match $op { $(BinOp::$name => $level),* }
    };
}

macro_rules! operator_of {
    ([$from:expr] $($name:ident $level:literal $symbol:ident $mark:literal $value:tt)*) => {
        match $from { $(Symbol::$symbol => Some(BinOp::$name),)* _ => None }
    };
}

pub fn level(op: BinOp) -> u8
    ensures { result ≡ tables.level op }
{
    ops!(level_of op)
}

fn operator(sign: Symbol) -> Option<BinOp>
    ensures { result ≡ spec.operator sign }
{
    ops!(operator_of sign)
}

fn relation(sign: Symbol) -> Option<Rel>
    ensures { result ≡ spec.relation sign }
{
    match sign {
        Symbol::Less => Some(Rel::Lt),
        Symbol::LessEqual => Some(Rel::Le),
        Symbol::Greater => Some(Rel::Gt),
        Symbol::GreaterEqual => Some(Rel::Ge),
        Symbol::EqualEqual => Some(Rel::Eq),
        Symbol::NotEqual => Some(Rel::Ne),
        _ => None,
    }
}

/// The binary operator that comes first, and the tokens after it.
pub fn front_op<'s>(text: &[u8], ts: &'s [Terminal]) -> Option<(BinOp, &'s [Terminal])>
    ensures { MatchOption result
        (spec.front_op (all_seen text.now ts.entry.now) ≡ None)
        (λ x. (spec.front_op (all_seen text.now ts.entry.now) ≡ Some x.0)
        × (all_seen text.now x.1.now ≡ drop 1 (all_seen text.now ts.entry.now))) }
{
    match ts {
        [Terminal::Symbol(sign), rest @ ..] => Some((operator(*sign)?, rest)),
        _ => None,
    }
}

/// The comparison that comes first, and the tokens after it.
pub fn front_rel<'s>(text: &[u8], ts: &'s [Terminal]) -> Option<(Rel, &'s [Terminal])>
    ensures { MatchOption result
        (spec.front_rel (all_seen text.now ts.entry.now) ≡ None)
        (λ x. (spec.front_rel (all_seen text.now ts.entry.now) ≡ Some x.0)
        × (all_seen text.now x.1.now ≡ drop 1 (all_seen text.now ts.entry.now))) }
{
    match ts {
        [Terminal::Symbol(sign), rest @ ..] => Some((relation(*sign)?, rest)),
        _ => None,
    }
}

/// The tokens after an opening parenthesis that isn't a cast's.
#[tactic(auto, unfolding(grammar_reading::specs::Reading::paren))]
pub fn paren<'s>(text: &[u8], ts: &'s [Terminal]) -> Option<&'s [Terminal]>
    ensures value { option_map (λ r. all_seen text.now r.now) result
        ≡ spec.paren (all_seen text.now ts.entry.now) }
    ensures shorter { IfSome result (λ r. length r.now < length ts.entry.now) }
{
    let inside = after(Symbol::OpenParen, text, ts)?;
    if after(Symbol::Uint64, text, inside).is_some()
        || after(Symbol::Unsigned, text, inside).is_some()
    {
        return None;
    }
    Some(inside)
}

/// How many such parentheses there are at the front, and what is inside all of them.
pub fn opens<'s>(text: &[u8], ts: &'s [Terminal]) -> (usize, &'s [Terminal])
    ensures count { result.0 ≡ (spec.opens (all_seen text.now ts.entry.now)).0 }
    ensures inside { all_seen text.now result.1.now
        ≡ (spec.opens (all_seen text.now ts.entry.now)).1 }
{
    let mut count = 0;
    let mut rest = ts;
    'front: while let Some(inside) = paren(text, rest) {
        count += 1;
        rest = inside;
    }
    (count, rest)
}
