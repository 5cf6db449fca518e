//! How the stages of a command come out: what it writes, or why it stops before that.

ghost use Rattle.std.specs.Prelude.{◌≡◌};
ghost use Rattle.command_line.specs.Lines.{limit_of};

use c_tree::{OutOfMemory, Refusal};
use edge::ByteList;
use fault_plan::FlipRefusal;

/// Which of a command's files.
#[derive(Clone, Copy, Debug, PartialEq, Eq)]
pub enum FileWord {
    Source,
    File,
    Data,
    Flip,
}

impl FileWord {
    /// The bytes that the file may have.
    pub fn limit(self) -> usize
        ensures { result ≡ limit_of self }
    {
        match self {
            FileWord::Source => 262_144,
            FileWord::File => 16_777_216,
            FileWord::Data => 67_108_864,
            FileWord::Flip => 65_536,
        }
    }
}

/// Why a command stops before it writes.
#[derive(Debug, Drop)]
pub enum Stop {
    ReadFault(FileWord),
    TooLong(FileWord),
    SourceRefused(Refusal),
    /// With the words of its line.
    DataRefused(ByteList),
    FlipRefused(FlipRefusal),
    NoMemory,
}

impl From<OutOfMemory> for Stop {
    ghost use Rattle.std.specs.Prelude.{◌≡◌};
    ghost use Rattle.command_line.specs.declared.outcome.Stop.TheVariants.{NoMemory};

    ghost from_gives = { λ _ cause. cause ≡ NoMemory };

    fn from(_error: OutOfMemory) -> Self {
        Stop::NoMemory
    }
}

impl From<Refusal> for Stop {
    ghost use Rattle.std.specs.Prelude.{◌≡◌};
    ghost use Rattle.command_line.specs.Stops.{stop_of};

    ghost from_gives = { λ refusal cause. cause ≡ stop_of refusal };

    fn from(refusal: Refusal) -> Self {
        match refusal {
            Refusal::OutOfMemory => Stop::NoMemory,
            _ => Stop::SourceRefused(refusal),
        }
    }
}

impl From<FlipRefusal> for Stop {
    ghost use Rattle.std.specs.Prelude.{◌≡◌};
    ghost use Rattle.command_line.specs.Stops.{flip_stop_of};

    ghost from_gives = { λ refusal cause. cause ≡ flip_stop_of refusal };

    fn from(refusal: FlipRefusal) -> Self {
        match refusal {
            FlipRefusal::OutOfMemory => Stop::NoMemory,
            _ => Stop::FlipRefused(refusal),
        }
    }
}

/// How a command ends that has written its text.
#[derive(Clone, Copy, Debug, PartialEq, Eq)]
pub enum Finish {
    Done,
    /// A run reported a fault of its memory.
    Reported,
    /// A run left its arrays.
    Outside,
}

/// What a command writes, and how it then ends.
#[derive(Drop)]
pub struct Output {
    pub text: ByteList,
    pub finish: Finish,
}
