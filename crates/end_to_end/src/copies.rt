//! Copies of trees with every kind of part, and the refusal for want of memory.

use c_tree::{
    BinOp, Expr, Exprs, Name, OutOfMemory, Param, Params, Refusal, Rel, Stmt, Stmts, Tests, UnOp,
    Unit,
};
use sqlite_items::Items;
use std::alloc::Global;
use std::test::Fail;

fn name(alloc: Global, text: &str) -> Result<Name, OutOfMemory> {
    Ok(Name {
        bytes: Items::from_slice(alloc, text.as_bytes())?,
    })
}

fn one<T: Drop>(alloc: Global, item: T) -> Result<Items<T>, OutOfMemory> {
    let mut items = Items::new(alloc);
    items.push(item)?;
    Ok(items)
}

fn boxed(alloc: Global, value: u64) -> Result<Box<Expr>, OutOfMemory> {
    Ok(Box::new(alloc, Expr::Lit(value))?)
}

/// Two operands that differ.
fn operands(alloc: Global) -> Result<(Box<Expr>, Box<Expr>), OutOfMemory> {
    Ok((boxed(alloc, 1)?, boxed(alloc, 2)?))
}

fn add_leaves(alloc: Global, list: &mut Exprs) -> Result<(), OutOfMemory> {
    list.push(Expr::Lit(18446744073709551615))?;
    list.push(Expr::Big(3, 4))?;
    list.push(Expr::Var(name(alloc, "s")?))?;
    let array = name(alloc, "A")?;
    list.push(Expr::Cell(array, one(alloc, Expr::Lit(5))?))?;
    Ok(())
}

fn add_unary(alloc: Global, list: &mut Exprs) -> Result<(), OutOfMemory> {
    list.push(Expr::Un(UnOp::Inv, boxed(alloc, 6)?))?;
    list.push(Expr::Cast(boxed(alloc, 6)?))?;
    list.push(Expr::Widen(boxed(alloc, 6)?))?;
    Ok(())
}

fn add_binary(alloc: Global, list: &mut Exprs) -> Result<(), OutOfMemory> {
    let (a, b) = operands(alloc)?;
    list.push(Expr::Bin(BinOp::Shl, a, b))?;
    let (a, b) = operands(alloc)?;
    list.push(Expr::Test(Rel::Ne, a, b))?;
    let (a, b) = operands(alloc)?;
    list.push(Expr::Min(a, b))?;
    let (a, b) = operands(alloc)?;
    list.push(Expr::Max(a, b))?;
    let (a, b) = operands(alloc)?;
    list.push(Expr::Least(a, b))?;
    let (a, b) = operands(alloc)?;
    list.push(Expr::Greatest(a, b))?;
    Ok(())
}

/// An expression of each kind.
fn expressions(alloc: Global) -> Result<Exprs, OutOfMemory> {
    let mut list = Items::new(alloc);
    add_leaves(alloc, &mut list)?;
    add_unary(alloc, &mut list)?;
    add_binary(alloc, &mut list)?;
    Ok(list)
}

fn tests(alloc: Global) -> Result<Tests, OutOfMemory> {
    let mut list = one(alloc, (Rel::Ge, Expr::Lit(1), Expr::Lit(2)))?;
    list.push((Rel::Eq, Expr::Lit(3), Expr::Lit(4)))?;
    Ok(list)
}

fn assignment(alloc: Global, op: Option<BinOp>) -> Result<Stmt, OutOfMemory> {
    Ok(Stmt::Assign {
        target: Expr::Var(name(alloc, "s")?),
        op,
        value: Expr::Lit(8),
    })
}

fn add_simple(alloc: Global, list: &mut Stmts) -> Result<(), OutOfMemory> {
    list.push(assignment(alloc, None)?)?;
    list.push(assignment(alloc, Some(BinOp::Xor))?)?;
    list.push(Stmt::Begin)?;
    list.push(Stmt::Verdict)?;
    list.push(Stmt::Table {
        name: name(alloc, "t")?,
        length: Expr::Lit(9),
    })?;
    list.push(Stmt::Check {
        value: name(alloc, "r")?,
        extent: Expr::Lit(10),
        array: 11,
    })?;
    Ok(())
}

fn choice(alloc: Global) -> Result<Stmt, OutOfMemory> {
    let tests = tests(alloc)?;
    let then = one(alloc, Stmt::Begin)?;
    Ok(Stmt::If {
        tests,
        then,
        other: one(alloc, Stmt::Verdict)?,
    })
}

fn repeat(alloc: Global, body: Stmts) -> Result<Stmt, OutOfMemory> {
    Ok(Stmt::For {
        var: name(alloc, "i")?,
        lo: Expr::Lit(12),
        rel: Rel::Le,
        hi: Expr::Lit(13),
        body,
    })
}

/// A cell with an expression of each kind as a subscript.
fn widest_cell(alloc: Global) -> Result<Expr, OutOfMemory> {
    let array = name(alloc, "B")?;
    Ok(Expr::Cell(array, expressions(alloc)?))
}

/// A statement of each kind. The target of the first is a cell with an expression of each kind.
fn statements(alloc: Global) -> Result<Stmts, OutOfMemory> {
    let mut list = one(
        alloc,
        Stmt::Assign {
            target: widest_cell(alloc)?,
            op: None,
            value: Expr::Lit(14),
        },
    )?;
    add_simple(alloc, &mut list)?;
    list.push(choice(alloc)?)?;
    let body = one(alloc, Stmt::Begin)?;
    list.push(repeat(alloc, body)?)?;
    Ok(list)
}

fn params(alloc: Global) -> Result<Params, OutOfMemory> {
    let mut list = one(alloc, Param::Int(name(alloc, "n")?))?;
    list.push(Param::Array {
        name: name(alloc, "A")?,
        constant: true,
        extents: one(alloc, Expr::Lit(15))?,
    })?;
    Ok(list)
}

/// A unit with a part of each kind, all its statements in a loop.
fn unit(alloc: Global) -> Result<Unit, OutOfMemory> {
    let ranges = one(alloc, (name(alloc, "n")?, -16, 17))?;
    let params = params(alloc)?;
    let words = one(alloc, (name(alloc, "s")?, 18))?;
    let wides = one(alloc, name(alloc, "k")?)?;
    let body = statements(alloc)?;
    Ok(Unit {
        version: Some(1),
        ranges,
        name: name(alloc, "f")?,
        params,
        words,
        wides,
        body: one(alloc, repeat(alloc, body)?)?,
    })
}

fn same_name(a: &Name, b: &Name) -> bool {
    a.bytes.as_slice() == b.bytes.as_slice()
}

#[cycle(same_expr)]
fn same_expr(a: &Expr, b: &Expr) -> bool {
    match (a, b) {
        (Expr::Lit(n), Expr::Lit(m)) => n == m,
        (Expr::Var(x), Expr::Var(y)) => same_name(x, y),
        (Expr::Cell(x, at), Expr::Cell(y, other)) => {
            same_name(x, y) && same_exprs(at.as_slice(), other.as_slice())
        }
        (Expr::Un(op, a), Expr::Un(other, b)) => op == other && same_expr(a, b),
        (Expr::Bin(op, a, b), Expr::Bin(other, c, d)) => {
            op == other && same_expr(a, c) && same_expr(b, d)
        }
        (Expr::Cast(a), Expr::Cast(b)) => same_expr(a, b),
        (Expr::Test(rel, a, b), Expr::Test(other, c, d)) => {
            rel == other && same_expr(a, c) && same_expr(b, d)
        }
        (Expr::Min(a, b), Expr::Min(c, d)) => same_expr(a, c) && same_expr(b, d),
        (Expr::Max(a, b), Expr::Max(c, d)) => same_expr(a, c) && same_expr(b, d),
        (Expr::Least(a, b), Expr::Least(c, d)) => same_expr(a, c) && same_expr(b, d),
        (Expr::Greatest(a, b), Expr::Greatest(c, d)) => same_expr(a, c) && same_expr(b, d),
        (Expr::Widen(a), Expr::Widen(b)) => same_expr(a, b),
        (Expr::Big(high, low), Expr::Big(other, lower)) => high == other && low == lower,
        _ => false,
    }
}

#[cycle(same_expr)]
fn same_exprs(a: &[Expr], b: &[Expr]) -> bool {
    if a.len() != b.len() {
        return false;
    }
    for (a, b) in a.iter().zip(b) {
        if !same_expr(a, b) {
            return false;
        }
    }
    true
}

/// Parts of lists, which no list of their own stands in.
trait Same {
    fn is_same(&self, other: &Self) -> bool;
}

impl Same for Name {
    fn is_same(&self, other: &Name) -> bool {
        same_name(self, other)
    }
}

impl Same for (Name, i64, i64) {
    fn is_same(&self, other: &(Name, i64, i64)) -> bool {
        same_name(&self.0, &other.0) && self.1 == other.1 && self.2 == other.2
    }
}

impl Same for (Name, u64) {
    fn is_same(&self, other: &(Name, u64)) -> bool {
        same_name(&self.0, &other.0) && self.1 == other.1
    }
}

impl Same for (Rel, Expr, Expr) {
    fn is_same(&self, other: &(Rel, Expr, Expr)) -> bool {
        self.0 == other.0 && same_expr(&self.1, &other.1) && same_expr(&self.2, &other.2)
    }
}

fn all_same<T: Same>(a: &[T], b: &[T]) -> bool {
    if a.len() != b.len() {
        return false;
    }
    for (a, b) in a.iter().zip(b) {
        if !a.is_same(b) {
            return false;
        }
    }
    true
}

#[cycle(same_stmt)]
fn same_stmt(a: &Stmt, b: &Stmt) -> bool {
    match (a, b) {
        (
            Stmt::For {
                var,
                lo,
                rel,
                hi,
                body,
            },
            Stmt::For {
                var: name,
                lo: first,
                rel: other,
                hi: last,
                body: statements,
            },
        ) => {
            same_name(var, name)
                && same_expr(lo, first)
                && rel == other
                && same_expr(hi, last)
                && same_stmts(body.as_slice(), statements.as_slice())
        }
        (
            Stmt::If { tests, then, other },
            Stmt::If {
                tests: conditions,
                then: first,
                other: second,
            },
        ) => {
            all_same(tests.as_slice(), conditions.as_slice())
                && same_stmts(then.as_slice(), first.as_slice())
                && same_stmts(other.as_slice(), second.as_slice())
        }
        (
            Stmt::Assign { target, op, value },
            Stmt::Assign {
                target: place,
                op: other,
                value: given,
            },
        ) => same_expr(target, place) && op == other && same_expr(value, given),
        (
            Stmt::Table { name, length },
            Stmt::Table {
                name: other,
                length: size,
            },
        ) => same_name(name, other) && same_expr(length, size),
        (Stmt::Begin, Stmt::Begin) | (Stmt::Verdict, Stmt::Verdict) => true,
        (
            Stmt::Check {
                value,
                extent,
                array,
            },
            Stmt::Check {
                value: word,
                extent: bound,
                array: other,
            },
        ) => same_name(value, word) && same_expr(extent, bound) && array == other,
        _ => false,
    }
}

#[cycle(same_stmt)]
fn same_stmts(a: &[Stmt], b: &[Stmt]) -> bool {
    if a.len() != b.len() {
        return false;
    }
    for (a, b) in a.iter().zip(b) {
        if !same_stmt(a, b) {
            return false;
        }
    }
    true
}

impl Same for Param {
    fn is_same(&self, other: &Param) -> bool {
        match (self, other) {
            (Param::Int(x), Param::Int(y)) => same_name(x, y),
            (
                Param::Array {
                    name,
                    constant,
                    extents,
                },
                Param::Array {
                    name: other,
                    constant: fixed,
                    extents: sizes,
                },
            ) => {
                same_name(name, other)
                    && constant == fixed
                    && same_exprs(extents.as_slice(), sizes.as_slice())
            }
            _ => false,
        }
    }
}

fn same_unit(a: &Unit, b: &Unit) -> bool {
    a.version == b.version
        && all_same(a.ranges.as_slice(), b.ranges.as_slice())
        && same_name(&a.name, &b.name)
        && all_same(a.params.as_slice(), b.params.as_slice())
        && all_same(a.words.as_slice(), b.words.as_slice())
        && all_same(a.wides.as_slice(), b.wides.as_slice())
        && same_stmts(a.body.as_slice(), b.body.as_slice())
}

#[test]
fn copies_a_unit(rt: HostRuntime) -> Result<(), Fail> {
    let original = unit(rt.alloc())?;
    let copied = original.copy(rt.alloc())?;
    assert!(rt; same_unit(&original, &copied));
    Ok(())
}

/// Each is the same as itself alone.
fn are_expressions_apart(list: &[Expr]) -> bool {
    for (i, a) in list.iter().enumerate() {
        for (j, b) in list.iter().enumerate() {
            if same_expr(a, b) != (i == j) {
                return false;
            }
        }
    }
    true
}

/// Each is the same as itself alone.
fn are_statements_apart(list: &[Stmt]) -> bool {
    for (i, a) in list.iter().enumerate() {
        for (j, b) in list.iter().enumerate() {
            if same_stmt(a, b) != (i == j) {
                return false;
            }
        }
    }
    true
}

/// The comparison that the test of copies rests on tells all kinds from one another.
#[test]
fn tells_trees_apart(rt: HostRuntime) -> Result<(), Fail> {
    let expressions = expressions(rt.alloc())?;
    assert!(rt; expressions.len() == 13 && are_expressions_apart(expressions.as_slice()));
    let statements = statements(rt.alloc())?;
    assert!(rt; statements.len() == 9 && are_statements_apart(statements.as_slice()));
    Ok(())
}

/// Room for so many bytes, or want of memory.
fn make_room(alloc: Global, bytes: usize) -> Result<(), OutOfMemory> {
    let _room: Vec<u8> = Vec::with_capacity(alloc, bytes)?;
    Ok(())
}

fn refuse(alloc: Global, bytes: usize) -> Result<(), Refusal> {
    make_room(alloc, bytes)?;
    Ok(())
}

fn refuse_at_once(alloc: Global, bytes: usize) -> Result<(), Refusal> {
    let _room: Vec<u8> = Vec::with_capacity(alloc, bytes)?;
    Ok(())
}

/// No machine has 2^62 bytes.
#[test]
fn refuses_for_want_of_memory(rt: HostRuntime) {
    let too_many = 1 << 62;
    assert!(rt; refuse(rt.alloc(), 1).is_ok() && refuse_at_once(rt.alloc(), 1).is_ok());
    assert!(rt; matches!(refuse(rt.alloc(), too_many), Err(Refusal::OutOfMemory)));
    assert!(rt;
        matches!(
            refuse_at_once(rt.alloc(), too_many),
            Err(Refusal::OutOfMemory)
        )
    );
}
