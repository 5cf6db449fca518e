//! How a call ends.

ghost use Rattle.std.specs.Prelude.{◌≡◌};
ghost use Rattle.command_line.specs.Statuses.{code_of, status_of as status_at, finish_status};

use crate::outcome::{Finish, Stop};

#[derive(Clone, Copy, Debug, PartialEq, Eq)]
pub enum Status {
    /// The text was written whole.
    Done,
    /// A run reported a fault of its memory.
    Reported,
    /// The words aren't in form.
    Usage,
    /// A file couldn't be read.
    ReadFault,
    /// The text couldn't be written.
    WriteFault,
    SourceRefused,
    DataRefused,
    FlipRefused,
    /// A run left its arrays.
    Outside,
    NoMemory,
    /// A file is longer than its limit.
    TooLong,
}

impl Status {
    /// The number that the program ends with.
    pub fn code(&self) -> u8
        ensures { result ≡ code_of self.now }
    {
        match self {
            Status::Done => 0,
            Status::Reported => 1,
            Status::Usage => 2,
            Status::ReadFault => 3,
            Status::WriteFault => 4,
            Status::SourceRefused => 5,
            Status::DataRefused => 6,
            Status::FlipRefused => 7,
            Status::Outside => 8,
            Status::NoMemory => 9,
            Status::TooLong => 10,
        }
    }
}

/// The status of a call that stops before it writes.
pub fn status_of(cause: &Stop) -> Status
    ensures { result ≡ status_at cause.now }
{
    match cause {
        Stop::ReadFault(_) => Status::ReadFault,
        Stop::TooLong(_) => Status::TooLong,
        Stop::SourceRefused(_) => Status::SourceRefused,
        Stop::DataRefused(_) => Status::DataRefused,
        Stop::FlipRefused(_) => Status::FlipRefused,
        Stop::NoMemory => Status::NoMemory,
    }
}

/// The status of a call that has written its text whole.
pub fn finished(finish: Finish) -> Status
    ensures { result ≡ finish_status finish }
{
    match finish {
        Finish::Done => Status::Done,
        Finish::Reported => Status::Reported,
        Finish::Outside => Status::Outside,
    }
}
