//! The marks of operators and comparisons.

ghost use Rattle.std.specs.Prelude.{◌≡◌};
ghost use Rattle.c_tree.specs.Layout as layout;

use c_tree::{BinOp, Rel, UnOp, ops};

pub fn rel_mark(rel: Rel) -> &'static [u8]
    ensures { result.now ≡ layout.rel_mark rel }
{
    match rel {
        Rel::Lt => b"<",
        Rel::Le => b"<=",
        Rel::Gt => b">",
        Rel::Ge => b">=",
        Rel::Eq => b"==",
        Rel::Ne => b"!=",
    }
}

pub fn un_mark(op: UnOp) -> &'static [u8]
    ensures { result.now ≡ layout.un_mark op }
{
    match op {
        UnOp::Neg => b"-",
        UnOp::Inv => b"~",
    }
}

macro_rules! mark_cases {
    ([$op:expr] $($name:ident $level:literal $symbol:ident $mark:literal $value:tt)*) => {
        match $op { $(BinOp::$name => $mark.as_slice()),* }
    };
}

pub fn bin_mark(op: BinOp) -> &'static [u8]
    ensures { result.now ≡ layout.bin_mark op }
{
    ops!(mark_cases op)
}
