//! Printed texts, checked and run on the values of a data text.

ghost use Rattle.std.specs.Prelude.{◌⊎◌, IfOk, IfSome};
ghost use Rattle.acceptance.specs.Trees.{IsSourceTree, IsPrintedTree};
ghost use Rattle.c_tree.specs.Inputs.{Fit};
ghost use Rattle.c_tree.specs.Trees.{unit as tree};
ghost use Rattle.data_file.specs.Checks.{Fits};
ghost use Rattle.interp.specs.Finished.{inputs_in};
ghost use Rattle.kernel_check.specs.Kernels.{IsPrintedOf};

use c_parser::parse;
use c_tree::{Ended, Inputs, OutOfMemory, Refusal, Unit, preamble};
use data_file::{DataRefusal, fits_as_meant, read_data};
use kernel_check::{Printed, check_printed};
use sample_runs::runs::ended;
use std::alloc::Global;
use tree_texts::texts_have_trees;

fn checked(alloc: Global, unit: Unit) -> Result<Printed, Refusal>
    requires { IsSourceTree (tree unit) ⊎ IsPrintedTree (tree unit) }
    ensures { IfOk result (λ p. IsPrintedOf (tree p.unit) p) }
{
    match unit.version {
        Some(_) => check_printed(alloc, unit),
        None => Err(Refusal::Syntax { byte: 0 }),
    }
}

/// The preamble with this text behind it, where it is accepted.
pub fn printed_of(alloc: Global, behind: &[u8]) -> Result<Printed, Refusal>
    ensures { IfOk result (λ p. IsPrintedOf (tree p.unit) p) }
{
    texts_have_trees();
    let mut text = Vec::from_slice(alloc, preamble())?;
    text.extend_from_slice(behind)?;
    checked(alloc, parse(alloc, text.as_slice())?)
}

/// The inputs that a data text means by the head of a printed text, where it means some.
pub fn inputs_of(
    alloc: Global,
    printed: &Printed,
    data: &[u8],
) -> Result<Option<Inputs>, OutOfMemory>
    requires { IsPrintedOf (tree printed.now.unit) printed.now }
    ensures fits { IfOk result (λ given. IfSome given (λ i. Fit (tree printed.now.unit) (inputs_in i))) }
    ensures by_frame { IfOk result (λ given. IfSome given (λ i. Fits printed.now.frame i)) }
{
    fits_as_meant();
    match read_data(alloc, printed.frame(), data) {
        Ok(inputs) => Ok(Some(inputs)),
        Err(DataRefusal::OutOfMemory) => Err(OutOfMemory),
        Err(_) => Ok(None),
    }
}

/// The end of the run of the preamble with this text behind it, where both are taken.
pub fn printed_ran(alloc: Global, behind: &[u8], data: &[u8]) -> Result<Option<Ended>, Refusal> {
    let printed = printed_of(alloc, behind)?;
    match inputs_of(alloc, &printed, data)? {
        Some(i) => Ok(ended(alloc, printed.unit(), &i)?),
        None => Ok(None),
    }
}
