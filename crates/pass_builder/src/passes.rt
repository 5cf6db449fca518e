//! Counting passes: a copy of the source's loops that counts the reads of a cell between one
//! definition of it and the next.

ghost use Rattle.std.specs.Prelude.{◌≡◌, ◌+◌, ◌<◌, ◌^◌, ◌∷◌, [], IfOk, OnOk, Some, None, length, map};
ghost use Rattle.c_tree.specs.Plain.{assign as assigns, var, widen};
ghost use Rattle.c_tree.specs.Trees.{expr, exprs, tests, stmt, stmts};
ghost use Rattle.c_tree.specs.Grammar.Statements.{stmt_height, stmts_height};
ghost use Rattle.c_tree.specs.Instances.{sites, sites_all};
ghost use Rattle.instrumentation.specs.Names as names;
ghost use Rattle.instrumentation.specs.Passes as passes;
ghost use Rattle.instrumentation.specs.Passes.{renamed_all};
ghost use Rattle.text_parts.specs.Around.{names_of};
ghost use Rattle.text_parts.specs.Built.{Adds};
ghost use Rattle.pass_builder.specs.Counted.{target_of};
ghost use Rattle.text_parts.specs.Numbered.{numbers};
ghost use Rattle.text_parts.specs.Small.{IsSmall};

use c_tree::{BinOp, Expr, Exprs, Name, OutOfMemory, Param, Rel, Stmt, Stmts, Tests};
use sqlite_items::Items;
use std::alloc::Global;
use text_parts::{
    Loops, active_word, assign, count_sites, count_sites_of_all, counter_word, depth, full_value,
    number_of, only, pass_variable, rename_expr, rename_tests, repeat, same_values, set_word,
    use_count,
};

/// A pass.
#[derive(Clone, Copy)]
pub struct Pass<'a> {
    /// The parameters of the source, which number its arrays.
    pub params: &'a [Param],
    /// The number of the cell's array.
    pub array: u64,
    /// The cell's subscripts at the place of the pass.
    pub at: &'a [Expr],
    /// The number of the assignment that makes the counted definition; none for the initial one.
    pub site: Option<usize>,
}

/// The tests that a cell of the copy is another one, both being of one array.
fn same_cell(
    alloc: Global,
    loops: &Loops<'_>,
    at: &[Expr],
    other: &[Expr],
) -> Result<Tests, OutOfMemory>
    requires { length (names_of loops.now) < 2 ^ 64 }
    ensures { IfOk result (λ made. tests made
        ≡ passes.same_cell (renamed_all (names_of loops.now) (exprs at.now)) (exprs other.now)) }
{
    let mut made = Items::new(alloc);
    for (ours, theirs) in at.iter().zip(other) {
        let ours = rename_expr(alloc, ours, loops)?;
        made.push((Rel::Eq, ours, theirs.copy(alloc)?))?;
    }
    Ok(made)
}

/// The definition of a write that stands at the values of the source's loops is the counted one.
fn own_write(alloc: Global, loops: &Loops<'_>) -> Result<Stmts, OutOfMemory>
    requires { length (names_of loops.now) < 2 ^ 64 }
    ensures { IfOk result (λ made. map stmt made ≡ passes.own_write (names_of loops.now)) }
{
    let counted = only(alloc, set_word(active_word(alloc)?, 1))?;
    match loops {
        Loops::Outside => Ok(counted),
        Loops::Inside(_, _) => {
            let tests = same_values(alloc, loops)?;
            let other = only(alloc, set_word(active_word(alloc)?, 0))?;
            only(
                alloc,
                Stmt::If {
                    tests,
                    then: counted,
                    other,
                },
            )
        }
    }
}

/// The definition is counted once more where it stands in its cell.
fn count_once(alloc: Global) -> Result<Stmts, OutOfMemory>
    ensures { IfOk result (λ made. map stmt made
        ≡ assigns (var names.counter) (Some BinOp.Add) (var names.active) ∷ []) }
{
    let active = Expr::Var(active_word(alloc)?);
    only(
        alloc,
        assign(counter_word(alloc)?, Some(BinOp::Add), active),
    )
}

impl Pass<'_> {
    /// A read of a cell.
    fn read(
        &self,
        alloc: Global,
        loops: &Loops<'_>,
        name: &Name,
        at: &Exprs,
        out: &mut Stmts,
    ) -> Result<(), OutOfMemory>
        requires { length (names_of loops.now) < 2 ^ 64 }
        ensures { OnOk result (Adds out.old out.new (passes.count_cell (numbers self.now.params.now)
            (target_of self.now) (names_of loops.now) name.now.bytes (exprs at.now))) }
    {
        if number_of(self.params, name) == self.array {
            let tests = same_cell(alloc, loops, at.as_slice(), self.at)?;
            let then = count_once(alloc)?;
            let other = Items::new(alloc);
            out.push(Stmt::If { tests, then, other })?;
        }
        Ok(())
    }

    /// The reads of the index cells among a cell's subscripts.
    fn index_reads(
        &self,
        alloc: Global,
        loops: &Loops<'_>,
        at: &Exprs,
        out: &mut Stmts,
    ) -> Result<(), OutOfMemory>
        requires { length (names_of loops.now) < 2 ^ 64 }
        ensures { OnOk result (Adds out.old out.new
            (passes.count_indices (numbers self.now.params.now) (target_of self.now)
            (names_of loops.now) (exprs at.now))) }
    {
        for e in at.as_slice() {
            if let Expr::Cell(name, inner) = e {
                self.read(alloc, loops, name, inner, out)?;
            }
        }
        Ok(())
    }

    /// The reads of an expression, from left to right.
    fn reads(
        &self,
        alloc: Global,
        loops: &Loops<'_>,
        e: &Expr,
        out: &mut Stmts,
    ) -> Result<(), OutOfMemory>
        requires { length (names_of loops.now) < 2 ^ 64 }
        ensures { OnOk result (Adds out.old out.new
            (passes.count_reads (numbers self.now.params.now) (target_of self.now)
            (names_of loops.now) (expr e.now))) }
    {
        match e {
            Expr::Cell(name, at) => {
                self.index_reads(alloc, loops, at, out)?;
                self.read(alloc, loops, name, at, out)
            }
            Expr::Un(_, a) | Expr::Cast(a) => self.reads(alloc, loops, a, out),
            Expr::Bin(_, a, b) | Expr::Test(_, a, b) | Expr::Min(a, b) | Expr::Max(a, b) => {
                self.reads(alloc, loops, a, out)?;
                self.reads(alloc, loops, b, out)
            }
            Expr::Lit(_)
            | Expr::Var(_)
            | Expr::Least(_, _)
            | Expr::Greatest(_, _)
            | Expr::Widen(_)
            | Expr::Big(_, _) => Ok(()),
        }
    }

    /// What a write to the counted cell by the assignment of this number makes of its definition.
    fn definition(
        &self,
        alloc: Global,
        loops: &Loops<'_>,
        number: usize,
    ) -> Result<Stmts, OutOfMemory>
        requires { length (names_of loops.now) < 2 ^ 64 }
        ensures { IfOk result (λ made. map stmt made
            ≡ passes.write_text self.now.site (names_of loops.now) number) }
    {
        match self.site {
            Some(site) if site == number => own_write(alloc, loops),
            _ => only(alloc, set_word(active_word(alloc)?, 0)),
        }
    }

    /// The write of the assignment of this number.
    fn write(
        &self,
        alloc: Global,
        loops: &Loops<'_>,
        number: usize,
        target: &Expr,
        out: &mut Stmts,
    ) -> Result<(), OutOfMemory>
        requires { length (names_of loops.now) < 2 ^ 64 }
        ensures { OnOk result (Adds out.old out.new
            (passes.count_write (numbers self.now.params.now) (target_of self.now) self.now.site
            (names_of loops.now) number (expr target.now))) }
    {
        if let Expr::Cell(name, at) = target {
            if number_of(self.params, name) == self.array {
                let tests = same_cell(alloc, loops, at.as_slice(), self.at)?;
                let then = self.definition(alloc, loops, number)?;
                let other = Items::new(alloc);
                out.push(Stmt::If { tests, then, other })?;
            }
        }
        Ok(())
    }

    /// The copy of a statement, whose assignments have the numbers from `first` on.
    #[cycle(copy)]
    fn statement<'l>(
        &self,
        alloc: Global,
        loops: &'l Loops<'l>,
        first: usize,
        s: &'l Stmt,
        out: &mut Stmts,
    ) -> Result<(), OutOfMemory>
        requires shallow { length (names_of loops.now) + stmt_height (stmt s.now) < 2 ^ 64 }
        requires numbered { first + sites (stmt s.now) < 2 ^ 64 }
        ensures { OnOk result (Adds out.old out.new (passes.copied (numbers self.now.params.now)
            (target_of self.now) self.now.site (names_of loops.now) first (stmt s.now))) }
    {
        match s {
            Stmt::For {
                var,
                lo,
                rel,
                hi,
                body,
            } => {
                let inner = Loops::Inside(var, loops);
                let body = self.statements(alloc, &inner, first, body)?;
                let var = pass_variable(alloc, depth(loops))?;
                let lo = rename_expr(alloc, lo, loops)?;
                let hi = rename_expr(alloc, hi, loops)?;
                out.push(repeat(var, lo, *rel, hi, body))?;
                Ok(())
            }
            Stmt::If { tests, then, other } => {
                let second = first + count_sites_of_all(then);
                let tests = rename_tests(alloc, tests, loops)?;
                let then = self.statements(alloc, loops, first, then)?;
                let other = self.statements(alloc, loops, second, other)?;
                out.push(Stmt::If { tests, then, other })?;
                Ok(())
            }
            Stmt::Assign { target, op, value } => {
                let full = full_value(alloc, target, *op, value)?;
                self.reads(alloc, loops, &full, out)?;
                self.write(alloc, loops, first, target, out)
            }
            Stmt::Table { .. } | Stmt::Begin | Stmt::Check { .. } | Stmt::Verdict => Ok(()),
        }
    }

    /// The copy of a list of statements, whose assignments have the numbers from `first` on.
    #[cycle(copy)]
    fn statements<'l>(
        &self,
        alloc: Global,
        loops: &'l Loops<'l>,
        first: usize,
        body: &'l Stmts,
    ) -> Result<Stmts, OutOfMemory>
        requires shallow { length (names_of loops.now) + stmts_height (stmts body.now) < 2 ^ 64 }
        requires numbered { first + sites_all (stmts body.now) < 2 ^ 64 }
        ensures { IfOk result (λ made. map stmt made
            ≡ passes.copied_all (numbers self.now.params.now) (target_of self.now) self.now.site
            (names_of loops.now) first (stmts body.now)) }
    {
        let mut made = Items::new(alloc);
        let mut next = first;
        for s in body.as_slice() {
            self.statement(alloc, loops, next, s, &mut made)?;
            next += count_sites(s);
        }
        Ok(made)
    }

    /// The pass over the whole source.
    #[tactic(auto, unfolding(text_parts::specs::Small::IsSmall))]
    pub fn text(&self, alloc: Global, whole: &Stmts) -> Result<Stmts, OutOfMemory>
        requires { IsSmall (stmts whole.now) }
        ensures { IfOk result (λ made. map stmt made
            ≡ passes.pass_text (numbers self.now.params.now) (stmts whole.now) (target_of self.now)
            self.now.site) }
    {
        let standing = if self.site.is_none() { 1 } else { 0 };
        let mut text = Items::new(alloc);
        text.push(set_word(active_word(alloc)?, standing))?;
        text.push(set_word(counter_word(alloc)?, 0))?;
        text.append(self.statements(alloc, &Loops::Outside, 0, whole)?)?;
        text.push(store_count(alloc)?)?;
        Ok(text)
    }
}

/// The count of a pass is kept.
fn store_count(alloc: Global) -> Result<Stmt, OutOfMemory>
    ensures { IfOk result (λ made. stmt made
        ≡ assigns (var names.count) None (widen (var names.counter))) }
{
    let counter = Box::new(alloc, Expr::Var(counter_word(alloc)?))?;
    Ok(assign(use_count(alloc)?, None, Expr::Widen(counter)))
}
