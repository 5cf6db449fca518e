//! Walks: a copy of the source's loops that counts the writes of an inspected array, or follows
//! its definitions from access to access.

ghost use Rattle.std.specs.Prelude.{◌≡◌, suc, ◌+◌, ◌<◌, ◌^◌, ◌++◌, ◌∷◌, [], IfOk, OnOk, length, map};
ghost use Rattle.c_tree.specs.Plain.{PlainExprs, more_exprs, cell};
ghost use Rattle.c_tree.specs.Trees.{expr, exprs, stmt, stmts};
ghost use Rattle.c_tree.specs.Grammar.Statements.{stmt_height, stmts_height};
ghost use Rattle.instrumentation.specs.Passes.{renamed_all};
ghost use Rattle.instrumentation.specs.Tables as tables;
ghost use Rattle.text_parts.specs.Around.{names_of};
ghost use Rattle.text_parts.specs.Built.{Adds};
ghost use Rattle.text_parts.specs.Numbered.{numbers};
ghost use Rattle.table_builder.specs.Walks.{reads_of, writes_of};

use crate::entries::{count_current, one_more, set_current};
use c_tree::{Expr, Exprs, Name, OutOfMemory, Param, Stmt, Stmts};
use sqlite_items::Items;
use std::alloc::Global;
use text_parts::{
    Loops, assign, check, checked_array, depth, full_value, index_word, number_of, pass_variable,
    rename_expr, rename_exprs, rename_tests, repeat, row_of, shared_length, words_at,
};

/// A walk.
#[derive(Clone, Copy)]
pub struct Walk<'a> {
    /// The parameters of the source, which number its arrays.
    pub params: &'a [Param],
    /// The number of the inspected array.
    pub array: u64,
    /// Its extents.
    pub extents: &'a [Expr],
    /// Whether the walk follows the definitions, or only counts the writes.
    pub follows: bool,
}

/// The copy's cell for one of the source.
fn copied_cell(
    alloc: Global,
    loops: &Loops<'_>,
    name: &Name,
    at: &Exprs,
) -> Result<Expr, OutOfMemory>
    requires { length (names_of loops.now) < 2 ^ 64 }
    ensures { IfOk result (λ made. expr made
        ≡ cell name.now.bytes (renamed_all (names_of loops.now) (exprs at.now))) }
{
    let name = name.copy(alloc)?;
    Ok(Expr::Cell(name, rename_exprs(alloc, at, loops)?))
}

/// Adds the read of a subscript that is a cell.
fn add_index_word(
    alloc: Global,
    loops: &Loops<'_>,
    dimension: u64,
    e: &Expr,
    out: &mut Stmts,
) -> Result<(), OutOfMemory>
    requires { length (names_of loops.now) < 2 ^ 64 }
    ensures { OnOk result ((es : PlainExprs) →
        map stmt out.new ++ tables.index_words (names_of loops.now) (suc dimension) es
        ≡ map stmt out.old
        ++ tables.index_words (names_of loops.now) dimension (more_exprs (expr e.now) es)) }
{
    match e {
        Expr::Cell(name, inner) => {
            let value = copied_cell(alloc, loops, name, inner)?;
            out.push(assign(index_word(alloc, dimension)?, None, value))?;
            Ok(())
        }
        _ => Ok(()),
    }
}

/// Adds the reads of a cell's index cells.
fn add_index_words(
    alloc: Global,
    loops: &Loops<'_>,
    at: &[Expr],
    out: &mut Stmts,
) -> Result<(), OutOfMemory>
    requires { length (names_of loops.now) < 2 ^ 64 }
    ensures { OnOk result (Adds out.old out.new
        (tables.index_words (names_of loops.now) 0 (exprs at.now))) }
{
    for (dimension, e) in at.iter().enumerate() {
        add_index_word(alloc, loops, dimension as u64, e, out)?;
    }
    Ok(())
}

/// Adds the check of an index word.
fn add_word_check(
    alloc: Global,
    array: u32,
    dimension: u64,
    e: &Expr,
    extent: &Expr,
    out: &mut Stmts,
) -> Result<(), OutOfMemory>
    ensures { OnOk result ((es ns : PlainExprs) →
        map stmt out.new ++ tables.word_checks array (suc dimension) es ns ≡ map stmt out.old
        ++ tables.word_checks array dimension (more_exprs (expr e.now) es)
        (more_exprs (expr extent.now) ns)) }
{
    match e {
        Expr::Cell(_, _) => {
            out.push(check(alloc, index_word(alloc, dimension)?, extent, array)?)?;
            Ok(())
        }
        _ => Ok(()),
    }
}

/// Adds the checks of a cell's index words.
fn add_word_checks(
    alloc: Global,
    array: u32,
    at: &[Expr],
    extents: &[Expr],
    out: &mut Stmts,
) -> Result<(), OutOfMemory>
    ensures { OnOk result (Adds out.old out.new
        (tables.word_checks array 0 (exprs at.now) (exprs extents.now))) }
{
    for dimension in 0..shared_length(at, extents) {
        let extent = &extents[dimension];
        add_word_check(alloc, array, dimension as u64, &at[dimension], extent, out)?;
    }
    Ok(())
}

impl Walk<'_> {
    /// The row-major number of a cell of the array.
    fn row(&self, alloc: Global, loops: &Loops<'_>, at: &Exprs) -> Result<Expr, OutOfMemory>
        requires { length (names_of loops.now) < 2 ^ 64 }
        ensures { IfOk result (λ made. expr made ≡ tables.row_of (exprs self.now.extents.now)
            (tables.words_at (names_of loops.now) 0 (exprs at.now))) }
    {
        let words = words_at(alloc, loops, at.as_slice())?;
        row_of(alloc, self.extents, words.as_slice())
    }

    /// A read of a cell: its index cells, their checks, and the count of its current definition.
    fn inspect_cell(
        &self,
        alloc: Global,
        loops: &Loops<'_>,
        name: &Name,
        at: &Exprs,
        out: &mut Stmts,
    ) -> Result<(), OutOfMemory>
        requires { length (names_of loops.now) < 2 ^ 64 }
        ensures { OnOk result (Adds out.old out.new
            (tables.inspect_cell (numbers self.now.params.now) self.now.array
            (exprs self.now.extents.now) (names_of loops.now) name.now.bytes (exprs at.now))) }
    {
        if number_of(self.params, name) == self.array {
            let array = checked_array(self.array)?;
            add_index_words(alloc, loops, at.as_slice(), out)?;
            add_word_checks(alloc, array, at.as_slice(), self.extents, out)?;
            let row = self.row(alloc, loops, at)?;
            out.push(count_current(alloc, self.array, row)?)?;
        }
        Ok(())
    }

    /// The reads of the index cells among a cell's subscripts.
    fn inspect_indices(
        &self,
        alloc: Global,
        loops: &Loops<'_>,
        at: &Exprs,
        out: &mut Stmts,
    ) -> Result<(), OutOfMemory>
        requires { length (names_of loops.now) < 2 ^ 64 }
        ensures { OnOk result (Adds out.old out.new
            (tables.inspect_indices (numbers self.now.params.now) self.now.array
            (exprs self.now.extents.now) (names_of loops.now) (exprs at.now))) }
    {
        for e in at.as_slice() {
            if let Expr::Cell(name, inner) = e {
                self.inspect_cell(alloc, loops, name, inner, out)?;
            }
        }
        Ok(())
    }

    /// The reads of an expression, from left to right.
    fn inspect_reads(
        &self,
        alloc: Global,
        loops: &Loops<'_>,
        e: &Expr,
        out: &mut Stmts,
    ) -> Result<(), OutOfMemory>
        requires { length (names_of loops.now) < 2 ^ 64 }
        ensures { OnOk result (Adds out.old out.new
            (tables.inspect_reads (numbers self.now.params.now) self.now.array
            (exprs self.now.extents.now) (names_of loops.now) (expr e.now))) }
    {
        match e {
            Expr::Cell(name, at) => {
                self.inspect_indices(alloc, loops, at, out)?;
                self.inspect_cell(alloc, loops, name, at, out)
            }
            Expr::Un(_, a) | Expr::Cast(a) => self.inspect_reads(alloc, loops, a, out),
            Expr::Bin(_, a, b) | Expr::Test(_, a, b) | Expr::Min(a, b) | Expr::Max(a, b) => {
                self.inspect_reads(alloc, loops, a, out)?;
                self.inspect_reads(alloc, loops, b, out)
            }
            Expr::Lit(_)
            | Expr::Var(_)
            | Expr::Least(_, _)
            | Expr::Greatest(_, _)
            | Expr::Widen(_)
            | Expr::Big(_, _) => Ok(()),
        }
    }

    /// What stands for the reads of an assignment.
    #[tactic(auto, unfolding(crate::specs::Walks::reads_of))]
    fn reads(
        &self,
        alloc: Global,
        loops: &Loops<'_>,
        e: &Expr,
        out: &mut Stmts,
    ) -> Result<(), OutOfMemory>
        requires { length (names_of loops.now) < 2 ^ 64 }
        ensures { OnOk result (Adds out.old out.new
            (reads_of self.now (names_of loops.now) (expr e.now))) }
    {
        if self.follows {
            self.inspect_reads(alloc, loops, e, out)
        } else {
            Ok(())
        }
    }

    /// A write is counted.
    fn count_write(
        &self,
        alloc: Global,
        loops: &Loops<'_>,
        target: &Expr,
        out: &mut Stmts,
    ) -> Result<(), OutOfMemory>
        ensures { OnOk result (Adds out.old out.new (tables.count_writes
            (numbers self.now.params.now) self.now.array (names_of loops.now)
            (expr target.now))) }
    {
        let _loops = loops;
        if let Expr::Cell(name, _) = target {
            if number_of(self.params, name) == self.array {
                out.push(one_more(alloc, self.array)?)?;
            }
        }
        Ok(())
    }

    /// A write is the current definition of its cell, and is counted.
    fn number_write(
        &self,
        alloc: Global,
        loops: &Loops<'_>,
        target: &Expr,
        out: &mut Stmts,
    ) -> Result<(), OutOfMemory>
        requires { length (names_of loops.now) < 2 ^ 64 }
        ensures { OnOk result (Adds out.old out.new (tables.number_writes
            (numbers self.now.params.now) self.now.array (exprs self.now.extents.now)
            (names_of loops.now) (expr target.now))) }
    {
        if let Expr::Cell(name, at) = target {
            if number_of(self.params, name) == self.array {
                let row = self.row(alloc, loops, at)?;
                out.push(set_current(alloc, self.array, self.extents, row)?)?;
                out.push(one_more(alloc, self.array)?)?;
            }
        }
        Ok(())
    }

    /// What stands for the target of an assignment.
    #[tactic(auto, unfolding(crate::specs::Walks::writes_of))]
    fn write(
        &self,
        alloc: Global,
        loops: &Loops<'_>,
        target: &Expr,
        out: &mut Stmts,
    ) -> Result<(), OutOfMemory>
        requires { length (names_of loops.now) < 2 ^ 64 }
        ensures { OnOk result (Adds out.old out.new
            (writes_of self.now (names_of loops.now) (expr target.now))) }
    {
        if self.follows {
            self.number_write(alloc, loops, target, out)
        } else {
            self.count_write(alloc, loops, target, out)
        }
    }

    /// The copy of a statement.
    #[cycle(walk)]
    fn statement<'l>(
        &self,
        alloc: Global,
        loops: &'l Loops<'l>,
        s: &'l Stmt,
        out: &mut Stmts,
    ) -> Result<(), OutOfMemory>
        requires { length (names_of loops.now) + stmt_height (stmt s.now) < 2 ^ 64 }
        ensures { OnOk result (Adds out.old out.new (tables.walk (reads_of self.now)
            (writes_of self.now) (names_of loops.now) (stmt s.now))) }
    {
        match s {
            Stmt::For {
                var,
                lo,
                rel,
                hi,
                body,
            } => {
                let inner = Loops::Inside(var, loops);
                let body = self.statements(alloc, &inner, body)?;
                let var = pass_variable(alloc, depth(loops))?;
                let lo = rename_expr(alloc, lo, loops)?;
                let hi = rename_expr(alloc, hi, loops)?;
                out.push(repeat(var, lo, *rel, hi, body))?;
                Ok(())
            }
            Stmt::If { tests, then, other } => {
                let tests = rename_tests(alloc, tests, loops)?;
                let then = self.statements(alloc, loops, then)?;
                let other = self.statements(alloc, loops, other)?;
                out.push(Stmt::If { tests, then, other })?;
                Ok(())
            }
            Stmt::Assign { target, op, value } => {
                let full = full_value(alloc, target, *op, value)?;
                self.reads(alloc, loops, &full, out)?;
                self.write(alloc, loops, target, out)
            }
            Stmt::Table { .. } | Stmt::Begin | Stmt::Check { .. } | Stmt::Verdict => Ok(()),
        }
    }

    /// The copy of a list of statements.
    #[cycle(walk)]
    pub fn statements<'l>(
        &self,
        alloc: Global,
        loops: &'l Loops<'l>,
        body: &'l Stmts,
    ) -> Result<Stmts, OutOfMemory>
        requires { length (names_of loops.now) + stmts_height (stmts body.now) < 2 ^ 64 }
        ensures { IfOk result (λ made. map stmt made ≡ tables.walk_all (reads_of self.now)
            (writes_of self.now) (names_of loops.now) (stmts body.now)) }
    {
        let mut made = Items::new(alloc);
        for s in body.as_slice() {
            self.statement(alloc, loops, s, &mut made)?;
        }
        Ok(made)
    }
}
