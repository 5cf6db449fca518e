//! The frame of a unit: its `int64_t` parameters with their ranges, and its arrays with sums for
//! extents. `data_file`'s `specs/Frames` says which frame a unit has, by the values of extents.
#![tactic(auto)]

mod arrays;
mod heads;
mod ranges;

ghost use Rattle.std.specs.Prelude.{◌≡◌, IfOk};
ghost use Rattle.c_tree.specs.Names.{ints_in};
ghost use Rattle.c_tree.specs.Trees.{unit as tree};
ghost use Rattle.data_file.specs.Conditions.{IsFrame};
ghost use Rattle.data_file.specs.Frames.{IsFrameOf};
ghost use Rattle.frames.specs.Heads.{HasGoodHead};
ghost use Rattle.frames.specs.Built.{HaveSums};

use c_tree::{Frame, OutOfMemory, Unit, int_names};
pub use heads::{heads_are_good, sample_has_frame};
use std::alloc::Global;

/// The frame of a unit: the `int64_t` parameters in declared order, each with the ends of its range
/// line, and the arrays, whose extents are the sums that stand for them. It fails for want of memory
/// alone.
pub fn frame_of(alloc: Global, unit: &Unit) -> Result<Frame, OutOfMemory>
    requires { HasGoodHead (tree unit.now) }
    ensures of { IfOk result (λ f. IsFrameOf (tree unit.now) f) }
    ensures is { IfOk result IsFrame }
    ensures sums { IfOk result (λ f. HaveSums (ints_in (tree unit.now).params) (tree unit.now).params f.arrays) }
{
    let names = int_names(alloc, unit.params.as_slice())?;
    let ints = ranges::ints_of(alloc, unit.ranges.as_slice(), names.as_slice())?;
    let arrays = arrays::arrays_of(alloc, unit.params.as_slice(), &names)?;
    Ok(Frame { ints, arrays })
}
