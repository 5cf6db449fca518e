//! The words and marks of the grammar.

/// A word that the grammar has and that is no name, a mark, or a token of lines.
#[derive(Clone, Copy, PartialEq, Eq)]
pub enum Symbol {
    Void,
    /// `int64_t`
    Int64,
    /// `uint64_t`
    Uint64,
    Const,
    For,
    If,
    Else,
    Unsigned,
    /// `__int128`
    Int128,
    Return,
    Calloc,
    Umin,
    Umax,
    /// `bal_min`
    BalMin,
    /// `bal_max`
    BalMax,
    /// `bal_wide`
    BalWide,
    OpenParen,
    CloseParen,
    OpenBracket,
    CloseBracket,
    OpenBrace,
    CloseBrace,
    Semicolon,
    Comma,
    Assign,
    AddAssign,
    SubAssign,
    MulAssign,
    AndAssign,
    OrAssign,
    XorAssign,
    Plus,
    Minus,
    Star,
    Slash,
    Percent,
    Ampersand,
    Bar,
    Caret,
    Tilde,
    ShiftLeft,
    ShiftRight,
    Less,
    LessEqual,
    Greater,
    GreaterEqual,
    EqualEqual,
    NotEqual,
    AndAnd,
    PlusPlus,
    /// A token that no rule uses.
    MinusMinus,
    /// The beginning of a line `#pragma balance`.
    Directive,
    /// The end of such a line.
    EndLine,
    /// The functions with which a printed text begins.
    Preamble,
}
