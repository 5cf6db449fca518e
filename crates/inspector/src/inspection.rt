//! The inspection of one array.

ghost use Rattle.std.specs.Prelude.{IfOk, map};
ghost use Rattle.c_tree.specs.Trees.{stmt, unit};
ghost use Rattle.acceptance.specs.Sources.{IsAcceptedSource};
ghost use Rattle.inspector.specs.Building.{Builds};
ghost use Rattle.inspector.specs.Counting.{IsAtWrite, IsInitial};
ghost use Rattle.inspector.specs.Inspections.{IsInspected, IsInspectionOf};
ghost use Rattle.text_parts.specs.Small.{IsSmall};

use crate::pieces::Inspection;
use c_tree::{OutOfMemory, Unit};
use kernel_check::Kernel;
use std::alloc::Global;
use table_builder::{at_write, build, initial};
use text_parts::extents_at;

/// The inspection of an array of a source.
fn inspection(alloc: Global, source: &Unit, array: usize) -> Result<Inspection, OutOfMemory>
    requires { IsSmall (unit source.now).body }
    ensures { IfOk result (IsInspectionOf (unit source.now) array) }
{
    let params = source.params.as_slice();
    let extents = extents_at(params, array);
    let build = build(alloc, params, &source.body, array as u64, extents)?;
    let initial = initial(alloc, array as u64, extents)?;
    let at_write = at_write(alloc, array as u64, extents)?;
    Ok(Inspection {
        build,
        initial,
        at_write,
    })
}

/// The tables of an inspected array, and the counts that are taken from them.
pub fn inspect(alloc: Global, k: &Kernel, array: usize) -> Result<Inspection, OutOfMemory>
    requires accepted { IsAcceptedSource (unit k.now.unit) }
    requires inspected { IsInspected (unit k.now.unit) array }
    ensures made { IfOk result (IsInspectionOf (unit k.now.unit) array) }

    // It makes the two tables in twice the source's turns, reading index arrays alone, and ends the
    // run instead exactly where an index of the array is out of its range.
    ensures builds { IfOk result (λ made. Builds (unit k.now.unit) array (map stmt made.build)) }

    // From the tables the other two set the count to the uses of their definition, with no access
    // and no turn.
    ensures counts_cells { IfOk result (λ made.
        IsInitial (unit k.now.unit) array (map stmt made.initial)) }
    ensures counts_writes { IfOk result (λ made.
        IsAtWrite (unit k.now.unit) array (map stmt made.at_write)) }
{
    source_laws::accepted_sources_follow();
    pass_laws::passes_go_on();
    inspection_laws::tables_hold_uses();
    inspection_laws::tables_end_exactly();
    unit_builder::accepted_sources_are_small();
    inspection(alloc, k.unit(), array)
}
