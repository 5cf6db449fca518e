//! The trees of a source and of a printed text, the values that stages hand on to one another, and
//! the refusals of a text. `specs/Trees` gives the plain tree of a value, of which every clause
//! speaks; `copy` gives a value with the same plain tree.
#![tactic(auto)]

mod affine;
mod copied;
mod expr;
mod frame;
mod memory;
mod name;
mod ops;
mod printed_text;
mod refusal;
mod reserved_words;
mod run;
mod signed_names;
mod stmt;
mod symbol;
mod token;
mod unit;

pub use affine::{Affine, Affines, Terms};
pub use copied::Copied;
pub use expr::{BinOp, Expr, Exprs, Rel, UnOp};
pub use frame::{ArrayCells, ArrayInfo, Arrays, Cells, Frame, Inputs, Ints, Site};
pub use memory::OutOfMemory;
pub use name::{Name, NameList};
pub use ops::{shifted_left, shifted_right};
pub use printed_text::{is_printed, preamble};
pub use refusal::{Counted, Refusal};
pub use reserved_words::{is_reserved, is_word, is_word_byte};
pub use run::{ArrayNumbers, Ended, Flip, Lengths, Totals, Verdict};
pub use signed_names::{Kind, SignedNames, is_named};
pub use stmt::{Stmt, Stmts, Tests};
pub use symbol::Symbol;
pub use token::{Token, TokenKind, Tokens};
pub use unit::{Param, Params, Ranges, Unit, Words, array_names, int_names};
