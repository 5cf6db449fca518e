//! Lines: where in one a place is, and what stands at the front of a text.

use c_tree::TokenKind;

/// Where in a line a place is: before its first token, behind one, or in a directive.
#[derive(Clone, Copy, PartialEq, Eq)]
pub enum Line {
    Fresh,
    Middle,
    Inside,
}

/// What is passed over besides comments: blanks, or all that stands in a line.
#[derive(Clone, Copy)]
pub enum Over {
    Blanks,
    Anything,
}

/// What stands at the front of a text, with its length.
#[derive(Clone, Copy)]
pub enum Piece {
    Passed(usize),
    Taken(TokenKind, usize),
    Nothing,
}

/// What stands at the front, and where in a line its end is.
#[derive(Clone, Copy)]
pub struct Step {
    pub piece: Piece,
    pub line: Line,
}
