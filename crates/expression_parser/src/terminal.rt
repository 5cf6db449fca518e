//! Tokens as the parser takes them.

use c_tree::Symbol;

/// A token of a text. A name stands in the text from its start up to its end.
#[derive(Clone, Copy)]
pub enum Terminal {
    Name(u32, u32),
    Literal(u64),
    Symbol(Symbol),
}
