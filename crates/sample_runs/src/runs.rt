//! Texts of sources, checked and run on the values of a data text.

ghost use Rattle.std.specs.Prelude.{◌⊎◌, IfOk, IfSome};
ghost use Rattle.acceptance.specs.Runnable.{IsRunnable};
ghost use Rattle.acceptance.specs.Trees.{IsSourceTree, IsPrintedTree};
ghost use Rattle.c_tree.specs.Inputs.{Fit};
ghost use Rattle.c_tree.specs.Trees.{unit as tree};
ghost use Rattle.data_file.specs.Checks.{Fits};
ghost use Rattle.interp.specs.Finished.{inputs_in};
ghost use Rattle.c_tree.specs.Flips.{fault_in, IsFaultFor};
ghost use Rattle.kernel_check.specs.Kernels.{IsKernelOf};

use c_parser::parse;
use c_tree::{Ended, Flip, Inputs, OutOfMemory, Refusal, Unit};
use data_file::{DataRefusal, fits_as_meant, read_data};
use interp::run;
use kernel_check::{Kernel, check};
use std::alloc::Global;
use tree_texts::texts_have_trees;

fn checked(alloc: Global, unit: Unit) -> Result<Kernel, Refusal>
    requires { IsSourceTree (tree unit) ⊎ IsPrintedTree (tree unit) }
    ensures { IfOk result (λ k. IsKernelOf (tree k.unit) k) }
{
    match unit.version {
        None => check(alloc, unit),
        Some(_) => Err(Refusal::Syntax { byte: 0 }),
    }
}

/// The source of a text, where it is accepted.
pub fn kernel_of(alloc: Global, text: &[u8]) -> Result<Kernel, Refusal>
    ensures { IfOk result (λ k. IsKernelOf (tree k.unit) k) }
{
    texts_have_trees();
    checked(alloc, parse(alloc, text)?)
}

/// The inputs that a data text means by the head of a source, where it means some.
pub fn inputs_of(alloc: Global, kernel: &Kernel, data: &[u8]) -> Result<Option<Inputs>, OutOfMemory>
    requires { IsKernelOf (tree kernel.now.unit) kernel.now }
    ensures fits { IfOk result (λ given. IfSome given (λ i. Fit (tree kernel.now.unit) (inputs_in i))) }
    ensures by_frame { IfOk result (λ given. IfSome given (λ i. Fits kernel.now.frame i)) }
{
    fits_as_meant();
    match read_data(alloc, kernel.frame(), data) {
        Ok(inputs) => Ok(Some(inputs)),
        Err(DataRefusal::OutOfMemory) => Err(OutOfMemory),
        Err(_) => Ok(None),
    }
}

/// The end of a run under a flip, where the parameters can be numbered.
pub fn ended_under(
    alloc: Global,
    unit: &Unit,
    i: &Inputs,
    flip: Option<&Flip>,
) -> Result<Option<Ended>, OutOfMemory>
    requires form { IsRunnable (tree unit.now) }
    requires fits { Fit (tree unit.now) (inputs_in i.now) }
    requires flip_fits { IfSome flip (λ f. IsFaultFor (tree unit.now) (inputs_in i.now) (fault_in f.now)) }
{
    if unit.params.len() < 2147483648 {
        Ok(Some(run(alloc, unit, i, flip)?))
    } else {
        Ok(None)
    }
}

/// The same without a flip.
pub fn ended(alloc: Global, unit: &Unit, i: &Inputs) -> Result<Option<Ended>, OutOfMemory>
    requires form { IsRunnable (tree unit.now) }
    requires fits { Fit (tree unit.now) (inputs_in i.now) }
{
    ended_under(alloc, unit, i, None)
}

/// The end of the run of a source on a data text, where both are taken.
pub fn ran(alloc: Global, text: &[u8], data: &[u8]) -> Result<Option<Ended>, Refusal> {
    let kernel = kernel_of(alloc, text)?;
    match inputs_of(alloc, &kernel, data)? {
        Some(i) => Ok(ended(alloc, kernel.unit(), &i)?),
        None => Ok(None),
    }
}
