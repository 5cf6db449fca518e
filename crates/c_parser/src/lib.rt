//! Reads texts of sources and printed texts: the unit exactly where the text spells one.
#![tactic(auto)]

mod checks;
mod declarations;
mod param;
mod range;
mod reading;
mod steps;
mod terminals;
mod top_level;
mod unit;
mod verdict;
mod wanted;

ghost use Rattle.std.specs.Prelude.{◌≡◌, ◌≤◌, ◌<◌, ℕ, List, length, IfOk, IfErr};
ghost use Rattle.c_tree.specs.Grammar.Texts.{IsText};
ghost use Rattle.c_tree.specs.Grammar.Tokens.{AreTokens, StopsAt};
ghost use Rattle.c_tree.specs.Plain.{PlainUnit};
ghost use Rattle.c_tree.specs.Trees.{unit as unit_in};
ghost use Rattle.c_tree.specs.declared.token.Token.{Token};
ghost use Rattle.c_parser.specs.Answers.{IsAnswer, IsRefused, IsUnless};
ghost use Rattle.c_parser.specs.Answers.{IsRefusedUnless, IsSyntaxUnless};

use c_lexer::{LexFault, lex, one_reading};
use c_tree::{Refusal, Unit};
use std::alloc::Global;

/// The most bytes of a text.
const MOST_BYTES: usize = 16_777_216;

/// The unit of a text that isn't too long, or why it has none.
fn read(alloc: Global, text: &[u8]) -> Result<Unit, Refusal>
    requires { length text.now ≤ 16777216 }
    ensures { IsAnswer text.now result }
{
    one_reading();
    let tokens = match lex(alloc, text) {
        Ok(tokens) => tokens,
        Err(LexFault::Lexical { byte }) => return Err(Refusal::Lexical { byte }),
        Err(LexFault::OutOfMemory) => return Err(Refusal::OutOfMemory),
    };
    reading::unit_among(alloc, text, tokens.as_slice())
}

/// The unit of a text, of a source or of a printed text.
pub fn parse(alloc: Global, text: &[u8]) -> Result<Unit, Refusal>
    // What is answered is what the text spells, and a refusal comes at its cause alone.
    ensures ok { IfOk result (λ u. (length text.now ≤ 16777216) × IsText text.now (unit_in u)) }
    ensures err { IfErr result (IsRefused text.now) }

    // Each text has its answer, unless memory runs out: its unit, or the refusal of one that is too
    // long, that has no tokens, or whose tokens are no unit.
    ensures unit { (u : PlainUnit) → length text.now ≤ 16777216
        → IsText text.now u → IsUnless u result }
    ensures too_long { 16777216 < length text.now
        → result ≡ Err (Refusal.TextTooLong (length text.now)) }
    ensures no_tokens { (byte : ℕ) → length text.now ≤ 16777216
        → StopsAt text.now byte → IsRefusedUnless (Refusal.Lexical byte) result }
    ensures no_unit { (tokens : List Token) → length text.now ≤ 16777216
        → AreTokens text.now tokens → ((u : PlainUnit) → IsText text.now u → ⊥)
        → IsSyntaxUnless result }
{
    if text.len() > MOST_BYTES {
        return Err(Refusal::TextTooLong {
            length: text.len() as u64,
        });
    }
    one_unit();
    one_reading();
    read(alloc, text)
}

/// A text has at most one unit.
pub fn one_unit()
    ensures { (text : List ℕ) (u v : PlainUnit) → IsText text u → IsText text v → u ≡ v }
{
    one_reading();
    grammar_reading::one_unit();
}
