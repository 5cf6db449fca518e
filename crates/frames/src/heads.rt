//! Which heads are good.

ghost use Rattle.data_file.specs.Conditions.{IsFrame};
ghost use Rattle.data_file.specs.Frames.{IsFrameOf};
ghost use Rattle.frames.specs.Heads.{HasGoodHead, PrintedAreGood, SourcesAreGood};
ghost use Rattle.frames.specs.Samples.{sample, sample_frame};

/// The head of each accepted unit is good.
pub fn heads_are_good()
    ensures sources { SourcesAreGood }
    ensures printed { PrintedAreGood }
{}

/// There is a unit with a good head, and it has a frame.
pub fn sample_has_frame()
    ensures good { HasGoodHead sample }
    ensures of { IsFrameOf sample sample_frame }
    ensures is { IsFrame sample_frame }
{}
