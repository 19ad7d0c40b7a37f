//! How serving ends.

use usb_base::{Memory, Refusal, Side};

/// Why serving has ended.
#[derive(Clone, Copy)]
pub enum ServeEnd {
    /// No link is up any more: the host, where one was dialled, has ended or was refused, and no client is there. With
    /// the first refusal of all.
    Ended { refused: Option<Refusal> },
    /// A call on this side failed.
    LinkFault(Side),
    /// The lines of refusals, or what is recorded, could not be written.
    WriteFault,
    /// For so many rounds in a row nothing has come.
    Idle,
    /// As many bytes and links as may come have come.
    Spent,
    /// No memory was left.
    Memory,
}

impl From<Memory> for ServeEnd {
    ghost use Rattle.std.specs.Prelude.{◌≡◌};
    ghost use Rattle.bridge_run.specs.declared.course.serve_end.ServeEnd.TheVariants.{Memory as OutOfMemory};

    ghost from_gives = { λ _ end. end ≡ OutOfMemory };

    fn from(_memory: Memory) -> Self {
        ServeEnd::Memory
    }
}
