//! Runs under the flip of a text.

ghost use Rattle.std.specs.Prelude.{IfSome};
ghost use Rattle.c_tree.specs.Inputs.{Fit};
ghost use Rattle.c_tree.specs.Trees.{unit as tree};
ghost use Rattle.data_file.specs.Checks.{Fits};
ghost use Rattle.interp.specs.Finished.{inputs_in};
ghost use Rattle.c_tree.specs.Flips.{fault_in, IsFaultFor};
ghost use Rattle.kernel_check.specs.Kernels.{IsKernelOf, IsPrintedOf};

use crate::printed_runs::{self, printed_of};
use c_tree::{Ended, Flip, Inputs, Refusal};
use fault_plan::{flips_fit_units, read_flip};
use kernel_check::{Kernel, Printed};
use sample_runs::runs::{self, ended_under, kernel_of};
use std::alloc::Global;

/// The flip that a text means for a source on these inputs, where it means one.
fn source_flip(kernel: &Kernel, i: &Inputs, text: &[u8]) -> Option<Flip>
    requires of { IsKernelOf (tree kernel.now.unit) kernel.now }
    requires fits { Fit (tree kernel.now.unit) (inputs_in i.now) }
    requires by_frame { Fits kernel.now.frame i.now }
    ensures { IfSome result (λ f. IsFaultFor (tree kernel.now.unit) (inputs_in i.now) (fault_in f)) }
{
    flips_fit_units();
    match read_flip(kernel.frame(), i, text) {
        Ok(flip) => Some(flip),
        Err(_) => None,
    }
}

/// The flip that a text means for a printed text on these inputs, where it means one.
fn printed_flip(printed: &Printed, i: &Inputs, text: &[u8]) -> Option<Flip>
    requires of { IsPrintedOf (tree printed.now.unit) printed.now }
    requires fits { Fit (tree printed.now.unit) (inputs_in i.now) }
    requires by_frame { Fits printed.now.frame i.now }
    ensures { IfSome result (λ f. IsFaultFor (tree printed.now.unit) (inputs_in i.now) (fault_in f)) }
{
    flips_fit_units();
    match read_flip(printed.frame(), i, text) {
        Ok(flip) => Some(flip),
        Err(_) => None,
    }
}

/// The end of the run of a source under a flip, where all three texts are taken.
pub fn source_struck(
    alloc: Global,
    text: &[u8],
    data: &[u8],
    flip: &[u8],
) -> Result<Option<Ended>, Refusal> {
    let kernel = kernel_of(alloc, text)?;
    match runs::inputs_of(alloc, &kernel, data)? {
        Some(i) => match source_flip(&kernel, &i, flip) {
            Some(fault) => Ok(ended_under(alloc, kernel.unit(), &i, Some(&fault))?),
            None => Ok(None),
        },
        None => Ok(None),
    }
}

/// The end of the run of the preamble with this text behind it under a flip, where all three texts are
/// taken.
pub fn printed_struck(
    alloc: Global,
    behind: &[u8],
    data: &[u8],
    flip: &[u8],
) -> Result<Option<Ended>, Refusal> {
    let printed = printed_of(alloc, behind)?;
    match printed_runs::inputs_of(alloc, &printed, data)? {
        Some(i) => match printed_flip(&printed, &i, flip) {
            Some(fault) => Ok(ended_under(alloc, printed.unit(), &i, Some(&fault))?),
            None => Ok(None),
        },
        None => Ok(None),
    }
}
