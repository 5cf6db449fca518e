//! The loops around a statement of the source, whose variables have other names in the copy of a
//! counting pass.

ghost use Rattle.std.specs.Prelude.{◌≡◌, ◌+◌, ◌<◌, ◌^◌, IfOk, length};
ghost use Rattle.c_tree.specs.Trees.{expr, exprs, tests};
ghost use Rattle.instrumentation.specs.Passes.{renamed_name, renamed, renamed_all, renamed_tests, same_instance};
ghost use Rattle.text_parts.specs.Around.{names_of};

use crate::names::pass_variable;
use c_tree::{Expr, Name, OutOfMemory, Rel, Tests};
use sqlite_items::Items;
use std::alloc::Global;

/// The variables of loops around one another, the innermost first.
#[derive(Clone, Copy)]
pub enum Loops<'a> {
    Outside,
    Inside(&'a Name, &'a Loops<'a>),
}

/// The number of loops.
pub fn depth(loops: &Loops<'_>) -> u64
    requires { length (names_of loops.now) < 2 ^ 64 }
    ensures { result ≡ length (names_of loops.now) }
{
    match loops {
        Loops::Outside => 0,
        Loops::Inside(_, around) => depth(around) + 1,
    }
}

/// The copy's name for a name of the source.
pub fn rename(alloc: Global, loops: &Loops<'_>, name: &Name) -> Result<Name, OutOfMemory>
    requires { length (names_of loops.now) < 2 ^ 64 }
    ensures { IfOk result (λ made. made.bytes ≡ renamed_name (names_of loops.now) name.now.bytes) }
{
    match loops {
        Loops::Outside => name.copy(alloc),
        Loops::Inside(variable, around) => if variable.same(name) {
            pass_variable(alloc, depth(around))
        } else {
            rename(alloc, around, name)
        },
    }
}

/// The copy's expression for one of the source.
#[cycle(rename_expr)]
pub fn rename_expr(alloc: Global, e: &Expr, loops: &Loops<'_>) -> Result<Expr, OutOfMemory>
    requires { length (names_of loops.now) < 2 ^ 64 }
    ensures { IfOk result (λ made. expr made ≡ renamed (names_of loops.now) (expr e.now)) }
{
    Ok(match e {
        Expr::Lit(value) => Expr::Lit(*value),
        Expr::Var(name) => Expr::Var(rename(alloc, loops, name)?),
        Expr::Cell(name, at) => {
            let name = name.copy(alloc)?;
            Expr::Cell(name, rename_exprs(alloc, at, loops)?)
        }
        Expr::Un(op, a) => Expr::Un(*op, rename_boxed(alloc, a, loops)?),
        Expr::Bin(op, a, b) => {
            let a = rename_boxed(alloc, a, loops)?;
            Expr::Bin(*op, a, rename_boxed(alloc, b, loops)?)
        }
        Expr::Cast(a) => Expr::Cast(rename_boxed(alloc, a, loops)?),
        Expr::Test(rel, a, b) => {
            let a = rename_boxed(alloc, a, loops)?;
            Expr::Test(*rel, a, rename_boxed(alloc, b, loops)?)
        }
        Expr::Min(a, b) => {
            let a = rename_boxed(alloc, a, loops)?;
            Expr::Min(a, rename_boxed(alloc, b, loops)?)
        }
        Expr::Max(a, b) => {
            let a = rename_boxed(alloc, a, loops)?;
            Expr::Max(a, rename_boxed(alloc, b, loops)?)
        }
        Expr::Least(a, b) => {
            let a = rename_boxed(alloc, a, loops)?;
            Expr::Least(a, rename_boxed(alloc, b, loops)?)
        }
        Expr::Greatest(a, b) => {
            let a = rename_boxed(alloc, a, loops)?;
            Expr::Greatest(a, rename_boxed(alloc, b, loops)?)
        }
        Expr::Widen(a) => Expr::Widen(rename_boxed(alloc, a, loops)?),
        Expr::Big(high, low) => Expr::Big(*high, *low),
    })
}

#[cycle(rename_expr)]
fn rename_boxed(alloc: Global, e: &Expr, loops: &Loops<'_>) -> Result<Box<Expr>, OutOfMemory>
    requires { length (names_of loops.now) < 2 ^ 64 }
    ensures { IfOk result (λ made. expr made.value ≡ renamed (names_of loops.now) (expr e.now)) }
{
    Ok(Box::new(alloc, rename_expr(alloc, e, loops)?)?)
}

/// The copy's expressions for a list of the source's.
#[cycle(rename_expr)]
pub fn rename_exprs(
    alloc: Global,
    list: &Items<Expr>,
    loops: &Loops<'_>,
) -> Result<Items<Expr>, OutOfMemory>
    requires { length (names_of loops.now) < 2 ^ 64 }
    ensures { IfOk result (λ made. exprs made ≡ renamed_all (names_of loops.now) (exprs list.now)) }
{
    let mut made = Items::new(alloc);
    for e in list.as_slice() {
        made.push(rename_expr(alloc, e, loops)?)?;
    }
    Ok(made)
}

/// The copy's tests for those of the source.
pub fn rename_tests(alloc: Global, list: &Tests, loops: &Loops<'_>) -> Result<Tests, OutOfMemory>
    requires { length (names_of loops.now) < 2 ^ 64 }
    ensures { IfOk result (λ made. tests made
        ≡ renamed_tests (names_of loops.now) (tests list.now)) }
{
    let mut made = Items::new(alloc);
    for (rel, a, b) in list.as_slice() {
        let a = rename_expr(alloc, a, loops)?;
        made.push((*rel, a, rename_expr(alloc, b, loops)?))?;
    }
    Ok(made)
}

/// The tests that the copy's loops stand at the values of the source's.
pub fn same_values(alloc: Global, loops: &Loops<'_>) -> Result<Tests, OutOfMemory>
    requires { length (names_of loops.now) < 2 ^ 64 }
    ensures { IfOk result (λ made. tests made ≡ same_instance (names_of loops.now)) }
{
    let mut made = Items::new(alloc);
    let mut loops = loops;
    while let Loops::Inside(variable, around) = loops {
        let ours = Expr::Var(pass_variable(alloc, depth(around))?);
        made.push((Rel::Eq, ours, Expr::Var(variable.copy(alloc)?)))?;
        loops = around;
    }
    Ok(made)
}
