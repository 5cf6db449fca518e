//! What a command runs.

ghost use Rattle.std.specs.Prelude.{◌≡◌};
ghost use Rattle.c_tree.specs.Trees.{unit as tree};

use c_tree::{Frame, Unit};
use kernel_check::{Kernel, Printed};

/// A source or a printed unit that was checked.
#[derive(Drop)]
pub enum Runnable {
    Source(Kernel),
    Printed(Printed),
}

impl Runnable {
    ghost use Rattle.top_call.specs.Stages.{frame_of, unit_of};

    /// The unit.
    pub fn unit(&self) -> &Unit
        ensures { tree result.now ≡ unit_of self.now }
    {
        match self {
            Runnable::Source(kernel) => kernel.unit(),
            Runnable::Printed(printed) => printed.unit(),
        }
    }

    /// Its frame.
    pub fn frame(&self) -> &Frame
        ensures { result.now ≡ frame_of self.now }
    {
        match self {
            Runnable::Source(kernel) => kernel.frame(),
            Runnable::Printed(printed) => printed.frame(),
        }
    }
}
