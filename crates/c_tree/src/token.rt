//! Tokens of a text.

use sqlite_items::Items;

/// What a token is. Which word or mark it is, its bytes say.
#[derive(Clone, Copy, Debug, PartialEq, Eq)]
pub enum TokenKind {
    Word,
    /// A literal of this value.
    Literal(u64),
    Mark,
    /// The front of a directive's line, from `#` to `balance`.
    Directive,
    /// The end of a directive's line.
    EndLine,
    /// The functions with which a printed text begins.
    Preamble,
}

/// A token, and the places in the text at which it begins and ends.
#[derive(Clone, Copy, Debug, PartialEq, Eq)]
pub struct Token {
    pub kind: TokenKind,
    pub start: u32,
    pub end: u32,
}

/// Tokens in the order of the text.
pub type Tokens = Items<Token>;
