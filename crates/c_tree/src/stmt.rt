//! Statements.

ghost use Rattle.std.specs.Prelude.{◌≡◌, IfOk};
ghost use Rattle.c_tree.specs.Trees.{tests, stmt, stmts};

use crate::copied::Copied;
use crate::expr::{BinOp, Expr, Rel};
use crate::memory::OutOfMemory;
use crate::name::Name;
use sqlite_items::Items;
use std::alloc::Global;

/// Comparisons joined by `&&`: each with its left and its right side.
pub type Tests = Items<(Rel, Expr, Expr)>;

#[derive(Drop)]
pub enum Stmt {
    /// A loop over `var` from `lo` on while `var rel hi`.
    For {
        var: Name,
        lo: Expr,
        rel: Rel,
        hi: Expr,
        body: Items<Stmt>,
    },
    /// An empty `other` is no `else`.
    If {
        tests: Tests,
        then: Items<Stmt>,
        other: Items<Stmt>,
    },
    /// A target is a `Var` or a `Cell` in every unit of the grammar. No `op` is `=`.
    Assign {
        target: Expr,
        op: Option<BinOp>,
        value: Expr,
    },
    /// The declaration of a table of words, in a printed text.
    Table {
        name: Name,
        length: Expr,
    },
    /// The end of the prologue of a printed text.
    Begin,
    /// The check of a printed text that the word `value` is below an extent of an array.
    Check {
        value: Name,
        extent: Expr,
        array: u32,
    },
    /// The last statement of a printed text, which compares all totals.
    Verdict,
}

pub type Stmts = Items<Stmt>;

/// The same plain trees.
impl Copied for Items<(Rel, Expr, Expr)> {
    ghost same = { λ copied list. tests copied ≡ tests list };

    fn copy(&self, alloc: Global) -> Result<Tests, OutOfMemory> {
        let mut copies = Items::new(alloc);
        for (rel, a, b) in self.as_slice() {
            copies.push((*rel, a.copy(alloc)?, b.copy(alloc)?))?;
        }
        Ok(copies)
    }
}

impl Stmt {
    /// The same plain tree.
    #[cycle(copy_stmt)]
    pub fn copy(&self, alloc: Global) -> Result<Stmt, OutOfMemory>
        ensures { IfOk result (λ copied. stmt copied ≡ stmt self.now) }
    {
        Ok(match self {
            Stmt::For {
                var,
                lo,
                rel,
                hi,
                body,
            } => Stmt::For {
                var: var.copy(alloc)?,
                lo: lo.copy(alloc)?,
                rel: *rel,
                hi: hi.copy(alloc)?,
                body: copy_stmts(alloc, body)?,
            },
            Stmt::If { tests, then, other } => Stmt::If {
                tests: tests.copy(alloc)?,
                then: copy_stmts(alloc, then)?,
                other: copy_stmts(alloc, other)?,
            },
            Stmt::Assign { target, op, value } => Stmt::Assign {
                target: target.copy(alloc)?,
                op: *op,
                value: value.copy(alloc)?,
            },
            Stmt::Table { name, length } => Stmt::Table {
                name: name.copy(alloc)?,
                length: length.copy(alloc)?,
            },
            Stmt::Begin => Stmt::Begin,
            Stmt::Check {
                value,
                extent,
                array,
            } => Stmt::Check {
                value: value.copy(alloc)?,
                extent: extent.copy(alloc)?,
                array: *array,
            },
            Stmt::Verdict => Stmt::Verdict,
        })
    }
}

#[cycle(copy_stmt)]
fn copy_stmts(alloc: Global, list: &Items<Stmt>) -> Result<Items<Stmt>, OutOfMemory>
    ensures { IfOk result (λ copied. stmts copied ≡ stmts list.now) }
{
    let mut copies = Items::new(alloc);
    for s in list.as_slice() {
        copies.push(s.copy(alloc)?)?;
    }
    Ok(copies)
}

/// The same plain trees.
impl Copied for Items<Stmt> {
    ghost same = { λ copied list. stmts copied ≡ stmts list };

    fn copy(&self, alloc: Global) -> Result<Items<Stmt>, OutOfMemory> {
        copy_stmts(alloc, self)
    }
}
