//! Laws of tokens.

ghost use Rattle.std.specs.Prelude.{◌≡◌, ◌⊎◌, ℕ, List, length};
ghost use Rattle.c_tree.specs.declared.token.Token.{Token};
ghost use Rattle.c_tree.specs.Grammar.Tokens.{Text, AreTokens, StopsAt};
ghost use Rattle.c_lexer.specs.Answers.{AreInOrder, AreParts};

/// Each text has one list of tokens, or else one first byte at which no token begins.
pub fn one_reading()
    ensures tokens_or_stop { (text : Text) → ((ts : List Token) × AreTokens text ts) ⊎ ((byte : ℕ) × StopsAt text byte) }
    ensures not_both { (text : Text) (ts : List Token) (byte : ℕ) → AreTokens text ts → StopsAt text byte → ⊥ }
    ensures one_list { (text : Text) (ts us : List Token) → AreTokens text ts → AreTokens text us → ts ≡ us }
    ensures one_byte { (text : Text) (first second : ℕ) → StopsAt text first → StopsAt text second → first ≡ second }
{}

/// The tokens of a text lie in it one behind another, and each is what its part of the text is.
pub fn tokens_are_parts()
    ensures in_order { (text : Text) (ts : List Token) → AreTokens text ts → AreInOrder 0 ts (length text) }
    ensures parts { (text : Text) (ts : List Token) → AreTokens text ts → AreParts text ts }
{}
