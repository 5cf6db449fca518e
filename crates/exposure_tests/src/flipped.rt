//! The run of the instrumented unit of a source under a flip, of texts.

ghost use Rattle.std.specs.Prelude.{IfSome};
ghost use Rattle.c_tree.specs.Inputs.{Fit};
ghost use Rattle.c_tree.specs.Trees.{unit as tree};
ghost use Rattle.data_file.specs.Checks.{Fits};
ghost use Rattle.interp.specs.Finished.{inputs_in};
ghost use Rattle.c_tree.specs.Flips.{fault_in, IsFaultFor};
ghost use Rattle.kernel_check.specs.Kernels.{IsKernelOf};

use c_tree::{Ended, Flip, Inputs, OutOfMemory, Refusal};
use fault_plan::{flips_fit_units, read_flip};
use interp::run;
use kernel_check::Kernel;
use rewrite::{Options, instrument};
use sample_runs::runs::{inputs_of, kernel_of};
use std::alloc::Global;

/// The flip that a text means on these inputs, where it means one.
fn fault_of(kernel: &Kernel, i: &Inputs, text: &[u8]) -> Option<Flip>
    requires of { IsKernelOf (tree kernel.now.unit) kernel.now }
    requires fits { Fit (tree kernel.now.unit) (inputs_in i.now) }
    requires by_frame { Fits kernel.now.frame i.now }
    ensures { IfSome result (λ f. IsFaultFor (tree kernel.now.unit) (inputs_in i.now) (fault_in f)) }
{
    flips_fit_units();
    match read_flip(kernel.frame(), i, text) {
        Ok(flip) => Some(flip),
        Err(_) => None,
    }
}

fn struck(
    alloc: Global,
    kernel: &Kernel,
    i: &Inputs,
    flip: &Flip,
) -> Result<Option<Ended>, OutOfMemory>
    requires of { IsKernelOf (tree kernel.now.unit) kernel.now }
    requires fits { Fit (tree kernel.now.unit) (inputs_in i.now) }
    requires flip_fits { IsFaultFor (tree kernel.now.unit) (inputs_in i.now) (fault_in flip.now) }
{
    let made = instrument(alloc, kernel, Options { split: false })?;
    if made.params.len() < 2147483648 {
        Ok(Some(run(alloc, &made, i, Some(flip))?))
    } else {
        Ok(None)
    }
}

/// The end of the run of a source's instrumented unit under the flip of a text, where all three texts
/// are taken.
pub fn flipped(
    alloc: Global,
    source: &[u8],
    data: &[u8],
    flip: &[u8],
) -> Result<Option<Ended>, Refusal> {
    let kernel = kernel_of(alloc, source)?;
    match inputs_of(alloc, &kernel, data)? {
        Some(i) => match fault_of(&kernel, &i, flip) {
            Some(fault) => Ok(struck(alloc, &kernel, &i, &fault)?),
            None => Ok(None),
        },
        None => Ok(None),
    }
}
