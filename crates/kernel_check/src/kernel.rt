//! Units that were checked.

ghost use Rattle.std.specs.Prelude.{◌≡◌, ◌⊎◌, ◌<◌, IfErr, IfOk, IfSome, MatchOption, OnOk, None, Some, length, map, slice_get};
ghost use Rattle.c_tree.specs.Names.{arrays_in};
ghost use Rattle.c_tree.specs.Trees.{param, unit as tree};
ghost use Rattle.c_tree.specs.declared.refusal.Refusal.{Refusal};
ghost use Rattle.acceptance.specs.Items.{lowest};
ghost use Rattle.acceptance.specs.Sources.{judged, IsAcceptedSource};
ghost use Rattle.acceptance.specs.Trees.{IsSourceTree, IsPrintedTree};
ghost use Rattle.data_file.specs.Conditions.{IsFrame};
ghost use Rattle.data_file.specs.Frames.{IsFrameOf};
ghost use Rattle.kernel_check.specs.Judging.{head_judged, printed_judged, IsLowest};
ghost use Rattle.kernel_check.specs.Kernels.{IsKernelOf, IsPrintedOf};
ghost use Rattle.sites.specs.Classes as classes;

use crate::heads::judge_head;
use crate::judge::{judge_printed, judge_source};
use c_tree::{Frame, Name, Param, Refusal, Unit};
use frames::{frame_of, heads_are_good};
use sites::{Class, SiteInfo, SiteLists, sites_of};
use std::alloc::Global;

/// A source that is accepted, with its frame and its sites.
#[derive(Drop)]
pub struct Kernel {
    unit: Unit,
    frame: Frame,
    sites: SiteLists,
}

impl Kernel {
    /// The source.
    pub fn unit(&self) -> &Unit
        ensures { result.now ≡ self.now.unit }
    {
        &self.unit
    }

    /// Its parameters with their ranges, and its arrays with their extents.
    pub fn frame(&self) -> &Frame
        ensures { result.now ≡ self.now.frame }
    {
        &self.frame
    }

    /// The sites of an array, in text and access order.
    pub fn sites(&self, array: usize) -> &[SiteInfo]
        requires { array < length self.now.sites }
        ensures { slice_get self.now.sites array ≡ Some result.now }
    {
        self.sites.as_slice()[array].as_slice()
    }
}

/// The name of the array of this number.
fn array_at(params: &[Param], array: usize) -> Option<&Name>
    ensures { MatchOption result
        (slice_get (arrays_in (map param params.now)) array ≡ None)
        (λ name. slice_get (arrays_in (map param params.now)) array ≡ Some name.now.bytes) }
{
    let mut left = array;
    for p in params {
        if let Param::Array { name, .. } = p {
            if left == 0 {
                return Some(name);
            }
            left -= 1;
        }
    }
    None
}

/// The class of an array.
pub fn class_of(k: &Kernel, array: usize) -> Class
    requires accepted { IsAcceptedSource (tree k.now.unit) }
    ensures { IfSome (slice_get (arrays_in (tree k.now.unit).params) array) (λ x. result ≡ classes.class_of (tree k.now.unit) x) }
{
    match array_at(k.unit.params.as_slice(), array) {
        Some(name) => sites::class_of(&k.unit, name),
        None => Class::Difference,
    }
}

/// A printed unit that is accepted, with its frame.
#[derive(Drop)]
pub struct Printed {
    unit: Unit,
    frame: Frame,
}

impl Printed {
    /// The printed unit.
    pub fn unit(&self) -> &Unit
        ensures { result.now ≡ self.now.unit }
    {
        &self.unit
    }

    /// Its parameters with their ranges, and its arrays with their extents.
    pub fn frame(&self) -> &Frame
        ensures { result.now ≡ self.now.frame }
    {
        &self.frame
    }
}

/// The source, where it is accepted. It refuses the lowest number that holds anywhere, with its least item.
pub fn check(alloc: Global, unit: Unit) -> Result<Kernel, Refusal>
    requires { IsSourceTree (tree unit) }
    ensures ok { IfOk result (IsKernelOf (tree unit)) }
    ensures err { IfErr result (λ why. (why ≡ Refusal.OutOfMemory) ⊎ IsLowest (tree unit) (judged (tree unit)) why) }
{
    heads_are_good();
    judge_source(alloc, &unit)?;
    let frame = frame_of(alloc, &unit)?;
    let sites = sites_of(alloc, &unit)?;
    Ok(Kernel { unit, frame, sites })
}

/// The printed unit, where it is accepted. It refuses the lowest number that holds anywhere, with its least item.
pub fn check_printed(alloc: Global, unit: Unit) -> Result<Printed, Refusal>
    requires { IsPrintedTree (tree unit) }
    ensures ok { IfOk result (IsPrintedOf (tree unit)) }
    ensures err { IfErr result (λ why. (why ≡ Refusal.OutOfMemory) ⊎ IsLowest (tree unit) (printed_judged (tree unit)) why) }
{
    heads_are_good();
    judge_printed(alloc, &unit)?;
    let frame = frame_of(alloc, &unit)?;
    Ok(Printed { unit, frame })
}

/// The frame of the head of a unit. It refuses the lowest number that holds at the head.
pub fn frame(alloc: Global, unit: &Unit) -> Result<Frame, Refusal>
    ensures of { IfOk result (λ f. IsFrameOf (tree unit.now) f) }
    ensures is { IfOk result IsFrame }
    ensures ok { OnOk result (lowest (head_judged (tree unit.now)) ≡ None) }
    ensures err { IfErr result (λ why. (why ≡ Refusal.OutOfMemory) ⊎ IsLowest (tree unit.now) (head_judged (tree unit.now)) why) }
{
    judge_head(alloc, unit)?;
    Ok(frame_of(alloc, unit)?)
}
