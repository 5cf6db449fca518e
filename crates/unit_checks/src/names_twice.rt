//! S4: a name that stands twice.

ghost use Rattle.std.specs.Prelude.{◌≡◌, IfOk};
ghost use Rattle.c_tree.specs.Trees.{stmt};
ghost use Rattle.acceptance.specs.Head as head;
ghost use Rattle.acceptance.specs.Printed as printed;
ghost use Rattle.scopes.specs.Scopes.{declared_in, scope_in};

use crate::name_lists::{all_names, distinct};
use c_tree::{OutOfMemory, Stmt};
use scopes::{Declared, Scope};
use std::alloc::Global;

/// Whether a loop's variable has a name that is in scope, or a table one that is declared, or either the function's.
pub fn has_name_twice(sc: &Scope<'_, '_>, s: &Stmt) -> bool
    ensures { result ≡ printed.item_name_twice (scope_in sc.now) (declared_in sc.now.declared.now).name (stmt s.now) }
{
    let function = &sc.declared.unit.name;
    match s {
        Stmt::For { var, .. } => function.same(var) || sc.is_known(var),
        Stmt::Table { name, .. } => function.same(name) || sc.is_declared(name),
        _ => false,
    }
}

/// Whether two parameters, arrays, words or wide words share a name, or one has the function's.
pub fn head_has_name_twice(alloc: Global, declared: &Declared<'_>) -> Result<bool, OutOfMemory>
    ensures { IfOk result (λ found. found ≡ head.head_names_twice (declared_in declared.now)) }
{
    let names = all_names(alloc, declared.unit)?;
    match distinct(alloc, names.as_slice())? {
        None => Ok(true),
        Some(_) => Ok(false),
    }
}
