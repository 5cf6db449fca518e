//! The stage that reads a flip text.

ghost use Rattle.std.specs.Prelude.{◌≡◌, MatchResult};
ghost use Rattle.data_file.specs.Checks.{Fits};
ghost use Rattle.fault_plan.specs.Answers.{MeansFitting};
ghost use Rattle.top_call.specs.Stages.{IsFlipWhyBy};
ghost use Rattle.top_call.specs.Whys.{StopsFor};

use c_tree::{Flip, Frame, Inputs};
use command_line::Stop;
use fault_plan::read_flip;

/// The flip that a text means by a frame, on inputs that fit it.
pub fn read_fault(frame: &Frame, inputs: &Inputs, text: &[u8]) -> Result<Flip, Stop>
    requires { Fits frame.now inputs.now }
    ensures { MatchResult result (MeansFitting frame.now inputs.now text.now) (StopsFor (IsFlipWhyBy frame.now inputs.now text.now)) }
{
    match read_flip(frame, inputs, text) {
        Ok(flip) => Ok(flip),
        Err(refusal) => Err(Stop::from(refusal)),
    }
}
