//! Expressions.

ghost use Rattle.std.specs.Prelude.{◌≡◌, IfOk};
ghost use Rattle.c_tree.specs.Trees.{expr, exprs};

use crate::copied::Copied;
use crate::memory::OutOfMemory;
use crate::name::Name;
use sqlite_items::Items;
use std::alloc::Global;

/// A comparison: `<`, `<=`, `>`, `>=`, `==` and `!=`.
#[derive(Clone, Copy, Debug, PartialEq, Eq)]
pub enum Rel {
    Lt,
    Le,
    Gt,
    Ge,
    Eq,
    Ne,
}

/// Unary `-` and `~`.
#[derive(Clone, Copy, Debug, PartialEq, Eq)]
pub enum UnOp {
    Neg,
    Inv,
}

/// The operators `+`, `-`, `*`, `/`, `%`, `<<`, `>>`, `&`, `^` and `|`.
#[derive(Clone, Copy, Debug, PartialEq, Eq)]
pub enum BinOp {
    Add,
    Sub,
    Mul,
    Div,
    Rem,
    Shl,
    Shr,
    And,
    Xor,
    Or,
}

#[derive(Drop)]
pub enum Expr {
    Lit(u64),
    Var(Name),
    /// A cell of an array, or an entry of a table of a printed text, with its subscripts.
    Cell(Name, Items<Expr>),
    Un(UnOp, Box<Expr>),
    Bin(BinOp, Box<Expr>, Box<Expr>),
    /// The cast to `uint64_t`.
    Cast(Box<Expr>),
    /// The cast of a comparison to `uint64_t`.
    Test(Rel, Box<Expr>, Box<Expr>),
    /// `umin`
    Min(Box<Expr>, Box<Expr>),
    /// `umax`
    Max(Box<Expr>, Box<Expr>),
    /// `bal_min` of a printed text
    Least(Box<Expr>, Box<Expr>),
    /// `bal_max` of a printed text
    Greatest(Box<Expr>, Box<Expr>),
    /// The cast to 128 bits in a printed text.
    Widen(Box<Expr>),
    /// A literal of 128 bits in a printed text: its high word and its low word.
    Big(u64, u64),
}

pub type Exprs = Items<Expr>;

impl Expr {
    /// The same plain tree.
    #[cycle(copy_expr)]
    pub fn copy(&self, alloc: Global) -> Result<Expr, OutOfMemory>
        ensures { IfOk result (λ copied. expr copied ≡ expr self.now) }
    {
        Ok(match self {
            Expr::Lit(value) => Expr::Lit(*value),
            Expr::Var(name) => Expr::Var(name.copy(alloc)?),
            Expr::Cell(name, subscripts) => {
                Expr::Cell(name.copy(alloc)?, copy_exprs(alloc, subscripts)?)
            }
            Expr::Un(op, a) => Expr::Un(*op, copy_boxed(alloc, a)?),
            Expr::Bin(op, a, b) => Expr::Bin(*op, copy_boxed(alloc, a)?, copy_boxed(alloc, b)?),
            Expr::Cast(a) => Expr::Cast(copy_boxed(alloc, a)?),
            Expr::Test(rel, a, b) => Expr::Test(*rel, copy_boxed(alloc, a)?, copy_boxed(alloc, b)?),
            Expr::Min(a, b) => Expr::Min(copy_boxed(alloc, a)?, copy_boxed(alloc, b)?),
            Expr::Max(a, b) => Expr::Max(copy_boxed(alloc, a)?, copy_boxed(alloc, b)?),
            Expr::Least(a, b) => Expr::Least(copy_boxed(alloc, a)?, copy_boxed(alloc, b)?),
            Expr::Greatest(a, b) => Expr::Greatest(copy_boxed(alloc, a)?, copy_boxed(alloc, b)?),
            Expr::Widen(a) => Expr::Widen(copy_boxed(alloc, a)?),
            Expr::Big(high, low) => Expr::Big(*high, *low),
        })
    }
}

#[cycle(copy_expr)]
fn copy_boxed(alloc: Global, e: &Expr) -> Result<Box<Expr>, OutOfMemory>
    ensures { IfOk result (λ copied. expr copied.value ≡ expr e.now) }
{
    Ok(Box::new(alloc, e.copy(alloc)?)?)
}

#[cycle(copy_expr)]
fn copy_exprs(alloc: Global, list: &Items<Expr>) -> Result<Items<Expr>, OutOfMemory>
    ensures { IfOk result (λ copied. exprs copied ≡ exprs list.now) }
{
    let mut copies = Items::new(alloc);
    for e in list.as_slice() {
        copies.push(e.copy(alloc)?)?;
    }
    Ok(copies)
}

/// The same plain trees.
impl Copied for Items<Expr> {
    ghost same = { λ copied list. exprs copied ≡ exprs list };

    fn copy(&self, alloc: Global) -> Result<Items<Expr>, OutOfMemory> {
        copy_exprs(alloc, self)
    }
}
