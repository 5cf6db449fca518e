//! Copies of lists.

ghost use Rattle.std.specs.Prelude.{IfOk};

use crate::memory::OutOfMemory;
use std::alloc::Global;

/// A list that can be copied. The other types of this crate have a method `copy` of their own.
pub trait Copied: Sized {
    /// That the first is a copy of the second.
    ghost same: { Self → Self → Type 0 };

    /// A copy of the list.
    fn copy(&self, alloc: Global) -> Result<Self, OutOfMemory>
        ensures { IfOk result (λ copied. same copied self.now) };
}
