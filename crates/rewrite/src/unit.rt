//! The instrumented unit of a kernel's source.

ghost use Rattle.std.specs.Prelude.{◌≡◌, false, IfOk};
ghost use Rattle.c_tree.specs.Trees.{unit};
ghost use Rattle.acceptance.specs.Printed.{IsAcceptedPrinted, StoresNothingBefore};
ghost use Rattle.acceptance.specs.Runnable.{IsRunnable};
ghost use Rattle.acceptance.specs.Sources.{IsAcceptedSource};
ghost use Rattle.acceptance.specs.Trees.{IsPrintedTree};
ghost use Rattle.instrumentation.specs.Guarded.{guarded};
ghost use Rattle.flip_laws.specs.FaultyRuns.{TellsOfFaults};

use c_tree::{OutOfMemory, Unit};
use kernel_check::Kernel;
use std::alloc::Global;

/// How a source is instrumented.
#[derive(Clone, Copy)]
pub struct Options {
    /// Whether innermost loops are split where their guards change.
    pub split: bool,
}

/// The instrumented unit of a source, by tables and counting passes and not split. It fails by
/// memory alone.
pub fn instrument(alloc: Global, k: &Kernel, o: Options) -> Result<Unit, OutOfMemory>
    requires accepted { IsAcceptedSource (unit k.now.unit) }
    requires whole { o.split ≡ false }
    ensures made { IfOk result (λ made. unit made ≡ guarded (unit k.now.unit)) }

    // As a text: a tree of the grammar, accepted, with no store into an array before it begins.
    ensures accepted { IfOk result (λ made. IsAcceptedPrinted (unit made)) }
    ensures tree { IfOk result (λ made. IsPrintedTree (unit made)) }
    ensures stores { IfOk result (λ made. StoresNothingBefore (unit made)) }

    // The interpreter runs it.
    ensures runs { IfOk result (λ made. IsRunnable (unit made)) }

    // What its runs are, with a fault and without, beside those of the source.
    ensures faults { IfOk result (λ made. TellsOfFaults (unit k.now.unit) (unit made)) }
{
    let Options { split: _ } = o;
    source_laws::accepted_sources_are_printed();
    flip_laws::accepted_sources_tell_of_faults();
    unit_builder::accepted_sources_are_small();
    unit_builder::instrumented_unit(alloc, k.unit())
}
