//! How a run ends.

ghost use Rattle.std.specs.Prelude.{◌≡◌};
ghost use Rattle.tape_run.specs.Code.{code_of};

use usb_base::Side;

/// How a run ends.
#[derive(Clone, Copy, PartialEq, Eq)]
pub enum Status {
    /// The tape was read to its end, a made one was printed or counted, or the links have ended, and no side was
    /// refused.
    Done,
    /// The words are no command, or the file to record in was there before.
    Usage,
    /// The tape was read to its end, or the links have ended, and a side was refused.
    Refused,
    /// The tape could not be read on.
    ReadFault,
    /// The output could not be written on, or the recording not made or written on.
    WriteFault,
    /// A side's link failed.
    LinkFault(Side),
    /// Memory ran out.
    OutOfMemory,
    /// The line of this number, counted from 1, is the first that isn't in the tape's grammar, may not stand where it
    /// does, or passes the tape's limit.
    BadTape(u64),
    /// Nothing came for as many rounds as was asked.
    Idle,
    /// As much came as may.
    Spent,
}

impl Status {
    /// The program's exit code.
    pub fn code(self) -> u8
        ensures { result ≡ code_of self }
    {
        match self {
            Status::Done => 0,
            Status::Usage => 1,
            Status::Refused => 2,
            Status::ReadFault => 3,
            Status::WriteFault => 4,
            Status::LinkFault(_) => 5,
            Status::OutOfMemory => 6,
            Status::BadTape(_) => 7,
            Status::Idle => 8,
            Status::Spent => 9,
        }
    }
}
