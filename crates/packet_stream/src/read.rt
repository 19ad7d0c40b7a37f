//! What a reader of packets answers.

ghost use Rattle.std.specs.Prelude.{Some};
ghost use Rattle.packet_stream.specs.Reads.{error_text};

use std::error::Error;
use std::fmt;
use usb_base::{Memory, Reason};

/// What stands at the front of bytes, where nothing is wrong.
#[derive(Drop)]
pub enum Read<P> {
    /// A packet, and how many bytes it has.
    Whole(P, usize),
    /// Less than a packet.
    Short,
}

/// Why no packet is read.
#[derive(Clone, Copy, Debug, PartialEq, Eq)]
pub enum ReadError {
    /// The packet is wrong at this place, counted in bytes from its first.
    Refused { place: u64, reason: Reason },
    /// No memory was left for the packet, which is whole. Its bytes may be read again.
    Memory(Memory),
}

impl fmt::Display for ReadError {
    ghost output = { λ error. Some (error_text error) };

    fn fmt<W: fmt::Write>(&self, f: &mut fmt::Formatter<W>) -> fmt::Result {
        match self {
            ReadError::Refused { place, reason } => {
                let name = reason.name();
                write!(f, "{name} at {place}")
            }
            ReadError::Memory(memory) => write!(f, "{memory}"),
        }
    }
}

impl Error for ReadError {}

impl From<Memory> for ReadError {
    ghost use Rattle.std.specs.Prelude.{◌≡◌};
    ghost use Rattle.packet_stream.specs.declared.read.ReadError.TheVariants.{Memory as OutOfMemory};

    ghost from_gives = { λ memory error. error ≡ OutOfMemory memory };

    fn from(memory: Memory) -> Self {
        ReadError::Memory(memory)
    }
}
