//! How serving's end is told.

ghost use Rattle.std.specs.Prelude.{◌≡◌};
ghost use Rattle.usbgate_commands.specs.links.Serves.{ended_as};

use bridge_run::ServeEnd;
use tape_run::Status;

/// The status of this end.
pub fn ended_as(end: ServeEnd) -> Status
    ensures { result ≡ ended_as end }
{
    match end {
        ServeEnd::Ended { refused: None } => Status::Done,
        ServeEnd::Ended { refused: Some(_) } => Status::Refused,
        ServeEnd::LinkFault(side) => Status::LinkFault(side),
        ServeEnd::WriteFault => Status::WriteFault,
        ServeEnd::Idle => Status::Idle,
        ServeEnd::Spent => Status::Spent,
        ServeEnd::Memory => Status::OutOfMemory,
    }
}
