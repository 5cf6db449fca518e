//! The prologue and the comparison of all totals.

ghost use Rattle.std.specs.Prelude.{◌≡◌, ◌≤◌, ◌++◌, ◌∷◌, [], IfOk, length, map};
ghost use Rattle.c_tree.specs.Plain.{verdict};
ghost use Rattle.c_tree.specs.Trees.{param, stmt, unit};
ghost use Rattle.instrumentation.specs.Guarded.{arrays_with_extents};
ghost use Rattle.instrumentation.specs.Prologue.{prologue_text};
ghost use Rattle.unit_builder.specs.CellPieces.{initial_pieces};

use c_tree::{OutOfMemory, Stmt, Stmts, Unit};
use kernel_check::Kernel;
use sqlite_items::Items;
use std::alloc::Global;
use unit_builder::add_given_prologue;

/// Adds the prologue of a source to the statements that make tables.
fn with_tables(
    alloc: Global,
    source: &Unit,
    tables: Stmts,
    initial: &[Stmts],
) -> Result<Stmts, OutOfMemory>
    requires { length (arrays_with_extents (unit source.now).params) ≤ length initial.now }
    ensures { IfOk result (λ made. map stmt made ≡ map stmt tables
        ++ prologue_text (initial_pieces initial.now) 0
        (arrays_with_extents (unit source.now).params)) }
{
    let mut text = tables;
    add_given_prologue(alloc, source.params.as_slice(), initial, &mut text)?;
    Ok(text)
}

/// The prologue of a kernel's source: the statements that make tables, and then for each cell of
/// each array its read, the array's piece, and the addition to the definition total.
pub fn prologue(
    alloc: Global,
    k: &Kernel,
    tables: Stmts,
    initial: Vec<Stmts>,
) -> Result<Stmts, OutOfMemory>
    requires { length initial.items ≡ length (arrays_with_extents (unit k.now.unit).params) }
    ensures { IfOk result (λ made. map stmt made ≡ map stmt tables
        ++ prologue_text (initial_pieces initial.items) 0
        (arrays_with_extents (unit k.now.unit).params)) }
{
    with_tables(alloc, k.unit(), tables, initial.as_slice())
}

/// The comparison of all totals.
pub fn epilogue(alloc: Global, _k: &Kernel) -> Result<Stmts, OutOfMemory>
    ensures { IfOk result (λ made. map stmt made ≡ verdict ∷ []) }
{
    let mut text = Items::new(alloc);
    text.push(Stmt::Verdict)?;
    Ok(text)
}
