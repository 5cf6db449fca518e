//! Which units a command takes.

ghost use Rattle.std.specs.Prelude.{◌≡◌, ◌⊎◌, MatchResult};
ghost use Rattle.acceptance.specs.Trees.{IsPrintedTree, IsSourceTree};
ghost use Rattle.c_tree.specs.Trees.{unit as tree};
ghost use Rattle.top_call.specs.Sources.{AnySource, AnyText};
ghost use Rattle.top_call.specs.Stages.{IsOwn, IsUnitWhy, frame_of, unit_of};

use crate::runnable::Runnable;
use c_tree::{Refusal, Unit};
use kernel_check::{Kernel, check, check_printed};
use std::alloc::Global;

/// The source, where it is accepted.
pub fn checked_source(alloc: Global, unit: Unit) -> Result<Kernel, Refusal>
    requires { IsSourceTree (tree unit) }
    ensures { MatchResult result (λ k. IsOwn AnySource (tree unit) (tree k.unit) k.frame) (IsUnitWhy (tree unit)) }
{
    match check(alloc, unit) {
        Ok(kernel) => Ok(kernel),
        Err(refusal) => Err(refusal),
    }
}

fn run_printed(alloc: Global, unit: Unit) -> Result<Runnable, Refusal>
    requires { IsPrintedTree (tree unit) }
    ensures { MatchResult result (λ r. IsOwn AnyText (tree unit) (unit_of r) (frame_of r)) (IsUnitWhy (tree unit)) }
{
    match check_printed(alloc, unit) {
        Ok(printed) => Ok(Runnable::Printed(printed)),
        Err(refusal) => Err(refusal),
    }
}

fn run_source(alloc: Global, unit: Unit) -> Result<Runnable, Refusal>
    requires { IsSourceTree (tree unit) }
    ensures { MatchResult result (λ r. IsOwn AnyText (tree unit) (unit_of r) (frame_of r)) (IsUnitWhy (tree unit)) }
{
    match check(alloc, unit) {
        Ok(kernel) => Ok(Runnable::Source(kernel)),
        Err(refusal) => Err(refusal),
    }
}

/// The source or printed unit, where it is accepted.
pub fn runnable(alloc: Global, unit: Unit) -> Result<Runnable, Refusal>
    requires { IsSourceTree (tree unit) ⊎ IsPrintedTree (tree unit) }
    ensures { MatchResult result (λ r. IsOwn AnyText (tree unit) (unit_of r) (frame_of r)) (IsUnitWhy (tree unit)) }
{
    match unit.version {
        None => run_source(alloc, unit),
        Some(_) => run_printed(alloc, unit),
    }
}
