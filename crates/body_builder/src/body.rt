//! Instrumented statements: each access once, each total brought up to date, and each index word
//! compared with its extent before the cell that it names is read.

ghost use Rattle.std.specs.Prelude.{◌≡◌, ◌+◌, ◌++◌, ◌∷◌, [], ◌<◌, ◌≤◌, ◌^◌, IfOk, OnOk, Some, None, length, map};
ghost use Rattle.c_tree.specs.Plain.{PlainExprs, more_exprs, assign as assigns, cell, var, widen};
ghost use Rattle.c_tree.specs.Trees.{expr, exprs, stmt, stmts};
ghost use Rattle.c_tree.specs.Instances.{sites, sites_all};
ghost use Rattle.instrumentation.specs.Body as body;
ghost use Rattle.instrumentation.specs.Body.{reads_in, registers, registers_all, full, load_text, index_loads, index_checks, add_text, store_text, assigned_text, instrument, instrument_all};
ghost use Rattle.instrumentation.specs.Names as names;
ghost use Rattle.instrumentation.specs.Subscripts.{indices_in};
ghost use Rattle.text_parts.specs.Built.{Adds, pieces_in};
ghost use Rattle.body_builder.specs.Loaded.{AddsLoads};
ghost use Rattle.text_parts.specs.Numbered.{numbers, sizes};

use c_tree::{BinOp, Copied, Expr, Exprs, Name, OutOfMemory, Param, Stmt, Stmts};
use sqlite_items::Items;
use std::alloc::Global;
use text_parts::{
    assign, check, checked_array, count_sites, count_sites_of_all, definition_total, extents_of,
    full_value, number_of, register, repeat, shared_length, stored_word, use_count, use_total,
};

/// The loads of an assignment as they are written, and the number of the next one.
#[derive(Drop)]
pub struct Loads {
    pub out: Stmts,
    pub next: u64,
}

impl Loads {
    /// Loads a cell by subscripts that read no cell, and gives the loaded word.
    fn load_one(
        &mut self,
        alloc: Global,
        params: &[Param],
        name: &Name,
        at: &Exprs,
    ) -> Result<Expr, OutOfMemory>
        requires { self.old.next + 1 < 2 ^ 64 }
        ensures { IfOk result (λ made. Adds self.old.out self.new.out
            (load_text (numbers params.now name.now.bytes) name.now.bytes (exprs at.now)
            self.old.next) × (self.new.next ≡ self.old.next + 1)
            × (expr made ≡ var (names.register self.old.next))) }
    {
        let load = self.next;
        self.out.push(read_cell(alloc, load, name, at)?)?;
        self.out
            .push(add_use(alloc, load, number_of(params, name))?)?;
        self.next = load + 1;
        Ok(Expr::Var(register(alloc, load)?))
    }

    /// Loads a subscript that is a cell.
    fn load_index(&mut self, alloc: Global, params: &[Param], e: &Expr) -> Result<(), OutOfMemory>
        requires { self.old.next + 1 < 2 ^ 64 }
        ensures loads { OnOk result ((es : PlainExprs) →
            map stmt self.new.out ++ index_loads (numbers params.now) es self.new.next
            ≡ map stmt self.old.out
            ++ index_loads (numbers params.now) (more_exprs (expr e.now) es) self.old.next) }
        ensures next { OnOk result ((es : PlainExprs) → self.new.next + indices_in es
            ≡ self.old.next + indices_in (more_exprs (expr e.now) es)) }
    {
        match e {
            Expr::Cell(name, inner) => {
                self.load_one(alloc, params, name, inner)?;
                Ok(())
            }
            _ => Ok(()),
        }
    }

    /// Loads the index cells of a cell's subscripts.
    fn load_indices(
        &mut self,
        alloc: Global,
        params: &[Param],
        at: &Exprs,
    ) -> Result<(), OutOfMemory>
        requires { self.old.next + (indices_in (exprs at.now) + 1) < 2 ^ 64 }
        ensures { OnOk result (Adds self.old.out self.new.out
            (index_loads (numbers params.now) (exprs at.now) self.old.next)
            × (self.new.next ≡ self.old.next + indices_in (exprs at.now))) }
    {
        for e in at.as_slice() {
            self.load_index(alloc, params, e)?;
        }
        Ok(())
    }

    /// Loads a cell, after its index cells and the checks of their words, and gives the loaded
    /// word.
    fn load_cell(
        &mut self,
        alloc: Global,
        params: &[Param],
        name: &Name,
        at: &Exprs,
    ) -> Result<Expr, OutOfMemory>
        requires { self.old.next + (indices_in (exprs at.now) + 2) < 2 ^ 64 }
        ensures { IfOk result (λ made. AddsLoads (numbers params.now) (sizes params.now)
            (cell name.now.bytes (exprs at.now)) self.old self.new (expr made)) }
    {
        let first = self.next;
        self.load_indices(alloc, params, at)?;
        add_checks(alloc, params, name, at, first, &mut self.out)?;
        let words = by_words(alloc, at, first)?;
        self.load_one(alloc, params, name, &words)
    }

    /// Loads the cells of an expression from left to right, and gives the expression over the
    /// loaded words.
    #[cycle(load)]
    fn load(&mut self, alloc: Global, params: &[Param], e: &Expr) -> Result<Expr, OutOfMemory>
        requires { self.old.next + (reads_in (expr e.now) + 1) < 2 ^ 64 }
        ensures { IfOk result (λ made.
            AddsLoads (numbers params.now) (sizes params.now) (expr e.now) self.old self.new (expr made)) }
    {
        match e {
            Expr::Cell(name, at) => self.load_cell(alloc, params, name, at),
            Expr::Un(op, a) => Ok(Expr::Un(*op, self.load_boxed(alloc, params, a)?)),
            Expr::Bin(op, a, b) => {
                let a = self.load_boxed(alloc, params, a)?;
                Ok(Expr::Bin(*op, a, self.load_boxed(alloc, params, b)?))
            }
            Expr::Cast(a) => Ok(Expr::Cast(self.load_boxed(alloc, params, a)?)),
            Expr::Test(rel, a, b) => {
                let a = self.load_boxed(alloc, params, a)?;
                Ok(Expr::Test(*rel, a, self.load_boxed(alloc, params, b)?))
            }
            Expr::Min(a, b) => {
                let a = self.load_boxed(alloc, params, a)?;
                Ok(Expr::Min(a, self.load_boxed(alloc, params, b)?))
            }
            Expr::Max(a, b) => {
                let a = self.load_boxed(alloc, params, a)?;
                Ok(Expr::Max(a, self.load_boxed(alloc, params, b)?))
            }
            Expr::Lit(_)
            | Expr::Var(_)
            | Expr::Least(_, _)
            | Expr::Greatest(_, _)
            | Expr::Widen(_)
            | Expr::Big(_, _) => e.copy(alloc),
        }
    }

    #[cycle(load)]
    fn load_boxed(
        &mut self,
        alloc: Global,
        params: &[Param],
        e: &Expr,
    ) -> Result<Box<Expr>, OutOfMemory>
        requires { self.old.next + (reads_in (expr e.now) + 1) < 2 ^ 64 }
        ensures { IfOk result (λ made.
            AddsLoads (numbers params.now) (sizes params.now) (expr e.now) self.old self.new (expr made.value)) }
    {
        Ok(Box::new(alloc, self.load(alloc, params, e)?)?)
    }
}

/// The subscripts of a cell with the words from `first` on in place of its index cells.
fn by_words(alloc: Global, at: &Exprs, first: u64) -> Result<Exprs, OutOfMemory>
    requires { first + indices_in (exprs at.now) < 2 ^ 64 }
    ensures { IfOk result (λ made. exprs made ≡ body.by_words (exprs at.now) first) }
{
    let mut made = Items::new(alloc);
    let mut next = first;
    for e in at.as_slice() {
        if let Expr::Cell(_, _) = e {
            made.push(Expr::Var(register(alloc, next)?))?;
            next += 1;
        } else {
            made.push(e.copy(alloc)?)?;
        }
    }
    Ok(made)
}

/// Adds the check of the word of this number where a subscript is a cell, and gives the number of
/// the next word.
fn add_index_check(
    alloc: Global,
    array: u32,
    e: &Expr,
    extent: &Expr,
    word: u64,
    out: &mut Stmts,
) -> Result<u64, OutOfMemory>
    requires { word + 1 < 2 ^ 64 }
    ensures checks { IfOk result (λ next. (es ns : PlainExprs) →
        map stmt out.new ++ index_checks array es ns next ≡ map stmt out.old
        ++ index_checks array (more_exprs (expr e.now) es) (more_exprs (expr extent.now) ns) word) }
    ensures next { IfOk result (λ next. (es : PlainExprs) →
        next + indices_in es ≡ word + indices_in (more_exprs (expr e.now) es)) }
{
    match e {
        Expr::Cell(_, _) => {
            out.push(check(alloc, register(alloc, word)?, extent, array)?)?;
            Ok(word + 1)
        }
        _ => Ok(word),
    }
}

/// Adds the checks of the words from `first` on against the extents of an array.
fn add_index_checks(
    alloc: Global,
    array: u32,
    at: &[Expr],
    extents: &[Expr],
    first: u64,
    out: &mut Stmts,
) -> Result<(), OutOfMemory>
    requires { first + (indices_in (exprs at.now) + 1) < 2 ^ 64 }
    ensures { OnOk result (Adds out.old out.new
        (index_checks array (exprs at.now) (exprs extents.now) first)) }
{
    let mut next = first;
    for dimension in 0..shared_length(at, extents) {
        next = add_index_check(alloc, array, &at[dimension], &extents[dimension], next, out)?;
    }
    Ok(())
}

/// Adds the checks of the index words of a cell, the words from `first` on.
fn add_checks(
    alloc: Global,
    params: &[Param],
    name: &Name,
    at: &Exprs,
    first: u64,
    out: &mut Stmts,
) -> Result<(), OutOfMemory>
    requires { first + (indices_in (exprs at.now) + 1) < 2 ^ 64 }
    ensures { OnOk result (Adds out.old out.new
        (index_checks (numbers params.now name.now.bytes) (exprs at.now)
        (sizes params.now name.now.bytes) first)) }
{
    let array = checked_array(number_of(params, name))?;
    let extents = extents_of(params, name);
    add_index_checks(alloc, array, at.as_slice(), extents, first, out)
}

/// A cell is read into the word of this number.
pub fn read_cell(alloc: Global, load: u64, name: &Name, at: &Exprs) -> Result<Stmt, OutOfMemory>
    ensures { IfOk result (λ made. stmt made
        ≡ assigns (var (names.register load)) None (cell name.now.bytes (exprs at.now))) }
{
    let cell = Expr::Cell(name.copy(alloc)?, at.copy(alloc)?);
    Ok(assign(register(alloc, load)?, None, cell))
}

/// The word of this number is added to the use total of an array.
fn add_use(alloc: Global, load: u64, array: u64) -> Result<Stmt, OutOfMemory>
    ensures { IfOk result (λ made. stmt made ≡ assigns (var (names.use_total array)) (Some BinOp.Add)
        (widen (var (names.register load)))) }
{
    let word = Box::new(alloc, Expr::Var(register(alloc, load)?))?;
    let total = use_total(alloc, array)?;
    Ok(assign(total, Some(BinOp::Add), Expr::Widen(word)))
}

/// The stored word is written to a cell.
fn write_cell(alloc: Global, name: &Name, at: &Exprs) -> Result<Stmt, OutOfMemory>
    ensures { IfOk result (λ made. stmt made
        ≡ assigns (cell name.now.bytes (exprs at.now)) None (var names.result)) }
{
    let target = Expr::Cell(name.copy(alloc)?, at.copy(alloc)?);
    Ok(Stmt::Assign {
        target,
        op: None,
        value: Expr::Var(stored_word(alloc)?),
    })
}

/// The product of the stored word and its count is added to the definition total of an array.
fn add_definition(alloc: Global, array: u64) -> Result<Stmt, OutOfMemory>
    ensures { IfOk result (λ made. stmt made ∷ [] ≡ add_text array) }
{
    let word = Box::new(alloc, Expr::Var(stored_word(alloc)?))?;
    let word = Box::new(alloc, Expr::Widen(word))?;
    let count = Box::new(alloc, Expr::Var(use_count(alloc)?))?;
    let product = Expr::Bin(BinOp::Mul, word, count);
    let total = definition_total(alloc, array)?;
    Ok(assign(total, Some(BinOp::Add), product))
}

/// Adds a copy of a piece.
pub fn add_piece(alloc: Global, piece: &Stmts, out: &mut Stmts) -> Result<(), OutOfMemory>
    ensures { OnOk result (Adds out.old out.new (map stmt piece.now)) }
{
    out.append(piece.copy(alloc)?)?;
    Ok(())
}

/// Adds the store of a value into a cell: its piece, and the addition to the definition total,
/// follow it.
fn add_store(
    alloc: Global,
    params: &[Param],
    piece: &Stmts,
    name: &Name,
    at: &Exprs,
    value: Expr,
    out: &mut Stmts,
) -> Result<(), OutOfMemory>
    ensures { OnOk result (Adds out.old out.new
        (store_text (numbers params.now name.now.bytes) (map stmt piece.now) name.now.bytes
        (exprs at.now) (expr value))) }
{
    out.push(assign(stored_word(alloc)?, None, value))?;
    out.push(write_cell(alloc, name, at)?)?;
    add_piece(alloc, piece, out)?;
    out.push(add_definition(alloc, number_of(params, name))?)?;
    Ok(())
}

/// Adds an assignment of a whole value, with the piece of its definition.
fn add_whole(
    alloc: Global,
    params: &[Param],
    piece: &Stmts,
    target: &Expr,
    full: &Expr,
    out: &mut Stmts,
) -> Result<(), OutOfMemory>
    requires { reads_in (expr full.now) + 1 < 2 ^ 64 }
    ensures { OnOk result (Adds out.old out.new
        (assigned_text (numbers params.now) (sizes params.now) (map stmt piece.now)
        (expr target.now) (expr full.now))) }
{
    let mut loads = Loads {
        out: Items::new(alloc),
        next: 0,
    };
    let value = loads.load(alloc, params, full)?;
    let mut text = loads.out;
    match target {
        Expr::Var(name) => text.push(assign(name.copy(alloc)?, None, value))?,
        Expr::Cell(name, at) => add_store(alloc, params, piece, name, at, value, &mut text)?,
        _ => return Ok(()),
    }
    out.append(text)?;
    Ok(())
}

/// Adds an assignment, with the piece of its definition.
fn add_assignment(
    alloc: Global,
    params: &[Param],
    piece: &Stmts,
    target: &Expr,
    op: Option<BinOp>,
    value: &Expr,
    out: &mut Stmts,
) -> Result<(), OutOfMemory>
    requires { reads_in (full (expr target.now) op (expr value.now)) + 1 < 2 ^ 64 }
    ensures { OnOk result (Adds out.old out.new
        (assigned_text (numbers params.now) (sizes params.now) (map stmt piece.now)
        (expr target.now) (full (expr target.now) op (expr value.now)))) }
{
    let full = full_value(alloc, target, op, value)?;
    add_whole(alloc, params, piece, target, &full, out)
}

/// Adds a statement of the source, whose assignments have the numbers from `first` on.
#[cycle(instrument)]
fn add_instrumented(
    alloc: Global,
    params: &[Param],
    pieces: &[Stmts],
    first: usize,
    s: &Stmt,
    out: &mut Stmts,
) -> Result<(), OutOfMemory>
    requires few { registers (stmt s.now) + 1 < 2 ^ 64 }
    requires given { first + sites (stmt s.now) ≤ length pieces.now }
    ensures { OnOk result (Adds out.old out.new
        (instrument (numbers params.now) (sizes params.now) (pieces_in pieces.now) first (stmt s.now))) }
{
    match s {
        Stmt::For {
            var,
            lo,
            rel,
            hi,
            body,
        } => {
            let lo = lo.copy(alloc)?;
            let hi = hi.copy(alloc)?;
            let body = instrumented(alloc, params, pieces, first, body)?;
            out.push(repeat(var.copy(alloc)?, lo, *rel, hi, body))?;
            Ok(())
        }
        Stmt::If { tests, then, other } => {
            let second = first + count_sites_of_all(then);
            let then = instrumented(alloc, params, pieces, first, then)?;
            let other = instrumented(alloc, params, pieces, second, other)?;
            let tests = tests.copy(alloc)?;
            out.push(Stmt::If { tests, then, other })?;
            Ok(())
        }
        Stmt::Assign { target, op, value } => {
            add_assignment(alloc, params, &pieces[first], target, *op, value, out)
        }
        Stmt::Table { .. } | Stmt::Begin | Stmt::Check { .. } | Stmt::Verdict => Ok(()),
    }
}

/// The instrumented statements of a list, whose assignments have the numbers from `first` on; a
/// piece for each number.
#[cycle(instrument)]
pub fn instrumented(
    alloc: Global,
    params: &[Param],
    pieces: &[Stmts],
    first: usize,
    body: &Stmts,
) -> Result<Stmts, OutOfMemory>
    requires few { registers_all (stmts body.now) + 1 < 2 ^ 64 }
    requires given { first + sites_all (stmts body.now) ≤ length pieces.now }
    ensures { IfOk result (λ made. map stmt made
        ≡ instrument_all (numbers params.now) (sizes params.now) (pieces_in pieces.now) first (stmts body.now)) }
{
    let mut out = Items::new(alloc);
    let mut next = first;
    for s in body.as_slice() {
        add_instrumented(alloc, params, pieces, next, s, &mut out)?;
        next += count_sites(s);
    }
    Ok(out)
}
