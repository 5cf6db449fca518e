//! Laws of frames: each accepted unit has one, and all frames of a unit say the same.
#![tactic(auto)]

ghost use Rattle.frame_laws.specs.Laws.{OfOneUnit, PrintedHaveFrames, ReadAlike, SourcesHaveFrames, WriteAlike};

/// Each accepted source and each accepted printed unit has a frame.
pub fn accepted_units_have_frames()
    ensures sources { SourcesHaveFrames }
    ensures printed { PrintedHaveFrames }
{
    frames::heads_are_good();
}

/// All frames of a unit say the same: parameters and ranges are equal, and so are the names of the
/// arrays and the values of their extents.
pub fn frames_say_the_same()
    ensures { OfOneUnit }
{}

/// By frames that say the same a text of data gets the same answers, and the end of a run the same
/// output.
pub fn same_frames_act_alike()
    ensures read { ReadAlike }
    ensures write { WriteAlike }
{}
