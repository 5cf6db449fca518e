//! The instrumented unit of a source, and its run.

ghost use Rattle.std.specs.Prelude.{◌≡◌, IfOk};
ghost use Rattle.acceptance.specs.Runnable.{IsRunnable};
ghost use Rattle.c_tree.specs.Trees.{unit as tree};
ghost use Rattle.instrumentation.specs.Guarded.{guarded};
ghost use Rattle.kernel_check.specs.Kernels.{IsKernelOf};

use c_tree::{Ended, Refusal, Unit};
use kernel_check::Kernel;
use rewrite::{Options, instrument};
use sample_runs::runs::{ended, inputs_of, kernel_of};
use std::alloc::Global;

fn made_of(alloc: Global, kernel: &Kernel) -> Result<Unit, Refusal>
    requires { IsKernelOf (tree kernel.now.unit) kernel.now }
    ensures runs { IfOk result (λ made. IsRunnable (tree made)) }
    ensures made { IfOk result (λ made. tree made ≡ guarded (tree kernel.now.unit)) }
{
    Ok(instrument(alloc, kernel, Options { split: false })?)
}

/// The instrumented unit of a text.
pub fn instrumented(alloc: Global, text: &[u8]) -> Result<Unit, Refusal> {
    let kernel = kernel_of(alloc, text)?;
    made_of(alloc, &kernel)
}

/// The end of the run of a source's instrumented unit on a data text, where both are taken.
pub fn tried(alloc: Global, text: &[u8], data: &[u8]) -> Result<Option<Ended>, Refusal> {
    let kernel = kernel_of(alloc, text)?;
    match inputs_of(alloc, &kernel, data)? {
        Some(i) => {
            let made = made_of(alloc, &kernel)?;
            Ok(ended(alloc, &made, &i)?)
        }
        None => Ok(None),
    }
}
