//! The pass of one definition.

ghost use Rattle.std.specs.Prelude.{◌≡◌, IfOk, map};
ghost use Rattle.acceptance.specs.Sources.{IsAcceptedSource};
ghost use Rattle.c_tree.specs.Trees.{stmt, unit};
ghost use Rattle.count_loops.specs.Passes.{CountsUses, IsStart, IsUninspected, TurnsAsSource, pass_of};
ghost use Rattle.text_parts.specs.Small.{IsSmall};

use crate::numbers::assignment;
use crate::start::Start;
use c_tree::{OutOfMemory, Stmts, Unit};
use kernel_check::Kernel;
use std::alloc::Global;
use unit_builder::{cell_pass, write_pass};

/// The pass of a definition of a source, as its text.
#[tactic(auto, unfolding(unit_builder::specs::CellPieces::passes_of, text_parts::specs::Small::IsSmall))]
fn pass_text(alloc: Global, source: &Unit, array: usize, start: Start) -> Result<Stmts, OutOfMemory>
    requires { IsSmall (unit source.now).body }
    ensures { IfOk result (λ made. map stmt made ≡ pass_of (unit source.now) array start) }
{
    let params = source.params.as_slice();
    match start {
        Start::Cell => cell_pass(alloc, params, &source.body, array),
        Start::Write(site) => {
            let number = assignment(alloc, &source.body, site.0 as usize)?;
            write_pass(alloc, params, &source.body, number)
        }
    }
}

/// The pass of a definition of an array that isn't inspected: from the initial cell at the
/// coordinates of the prologue, or from a write.
pub fn pass(alloc: Global, k: &Kernel, array: usize, start: Start) -> Result<Stmts, OutOfMemory>
    requires accepted { IsAcceptedSource (unit k.now.unit) }
    requires uninspected { IsUninspected (unit k.now.unit) array }
    requires there { IsStart (unit k.now.unit) array start }
    ensures made { IfOk result (λ made. map stmt made ≡ pass_of (unit k.now.unit) array start) }

    // For sound inputs and under every fault it sets the count to the uses, with no access.
    ensures counts { IfOk result (λ made. CountsUses (unit k.now.unit) array start (map stmt made)) }

    // And makes as many turns as the source.
    ensures turns { IfOk result (λ made. TurnsAsSource (unit k.now.unit) (map stmt made)) }
{
    source_laws::accepted_sources_follow();
    source_laws::accepted_sources_are_guarded();
    pass_laws::passes_count();
    unit_builder::accepted_sources_are_small();
    pass_text(alloc, k.unit(), array, start)
}
