//! The least item of a whole unit at which a condition holds.

ghost use Rattle.std.specs.Prelude.{◌≡◌, ◌+◌, ◌<◌, ◌^◌, true, [], IfOk, OnOk, length};
ghost use Rattle.c_tree.specs.Trees.{stmt, stmts};
ghost use Rattle.acceptance.specs.Items.{items_all, tables_after};
ghost use Rattle.kernel_check.specs.Conditions.{excess};
ghost use Rattle.kernel_check.specs.Items.{are_flat};
ghost use Rattle.kernel_check.specs.Scans.{Walked, first_met};
ghost use Rattle.scopes.specs.Scopes.{declared_in};

use crate::conditions::Check;
use crate::walk::{Stop, first_in};
use c_tree::{OutOfMemory, Stmt, Stmts};
use scopes::{Around, Declared, NameSet, Scope};
use std::alloc::Global;

fn noted<'x>(tables: &mut NameSet<'x>, s: &'x Stmt) -> Result<(), OutOfMemory>
    ensures { OnOk result (tables.new ≡ tables_after (stmt s.now) tables.old) }
{
    match s {
        Stmt::Table { name, .. } => tables.add(name),
        _ => Ok(()),
    }
}

// The number after those of all statements, unless the condition holds at an item.
fn walked<'n>(
    alloc: Global,
    check: Check,
    declared: &Declared<'n>,
    body: &'n Stmts,
) -> Result<u32, Stop>
    requires { are_flat (stmts body.now) ≡ true }
    ensures { Walked (excess check (declared_in declared.now)) 1 (items_all (stmts body.now) [] []) result }
{
    let mut tables = NameSet::new(alloc);
    let around = Around::Nothing;
    let mut next = 1;
    for s in body.as_slice() {
        let sc = Scope {
            declared,
            tables: &tables,
            around: &around,
        };
        next = first_in(alloc, check, &sc, s, next)?;
        noted(&mut tables, s)?;
    }
    Ok(next)
}

/// The first item at which the condition holds, and what there is too much of, where the items are fewer than 2^31.
pub fn first_of<'n>(
    alloc: Global,
    check: Check,
    declared: &Declared<'n>,
    body: &'n Stmts,
) -> Result<Option<(u32, u64)>, OutOfMemory>
    requires { are_flat (stmts body.now) ≡ true }
    ensures { 1 + length (items_all (stmts body.now) [] []) < 2 ^ 31
        → IfOk result (λ found. found ≡ first_met (excess check (declared_in declared.now)) 1 (items_all (stmts body.now) [] [])) }
{
    match walked(alloc, check, declared, body) {
        Ok(_) => Ok(None),
        Err(Stop::Found { item, count }) => Ok(Some((item, count))),
        Err(Stop::OutOfMemory) => Err(OutOfMemory),
    }
}
