//! The stage that reads a data text.

ghost use Rattle.std.specs.Prelude.{◌≡◌, MatchResult};
ghost use Rattle.data_file.specs.Answers.{MeansFitting};
ghost use Rattle.data_file.specs.Conditions.{IsFrame};
ghost use Rattle.top_call.specs.Stages.{IsDataStop, IsFrameWhy};
ghost use Rattle.top_call.specs.Whys.{StopsFor};

use c_tree::{Frame, Inputs};
use command_line::{Stop, data_refusal_text};
use data_file::{DataRefusal, read_data};
use std::alloc::Global;

fn told(alloc: Global, frame: &Frame, refusal: DataRefusal) -> Stop
    ensures { IsDataStop frame.now refusal result }
{
    if let DataRefusal::OutOfMemory = refusal {
        return Stop::NoMemory;
    }
    match data_refusal_text(alloc, frame, refusal) {
        Ok(text) => Stop::DataRefused(text),
        Err(_) => Stop::NoMemory,
    }
}

/// The inputs that a data text means by a frame.
pub fn read(alloc: Global, frame: &Frame, text: &[u8]) -> Result<Inputs, Stop>
    requires { IsFrame frame.now }
    ensures { MatchResult result (MeansFitting frame.now text.now) (StopsFor (IsFrameWhy frame.now text.now)) }
{
    match read_data(alloc, frame, text) {
        Ok(inputs) => Ok(inputs),
        Err(refusal) => Err(told(alloc, frame, refusal)),
    }
}
