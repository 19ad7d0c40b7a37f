//! Command block wrappers (Bulk-Only Transport, 5.1).

ghost use Rattle.std.specs.Prelude.{◌≡◌};
ghost use Rattle.disk_gadget.specs.Turns.{report_of};
ghost use Rattle.disk_gadget.specs.Wrappers.{wrapper_of};

use crate::command::Command;
use crate::report::{Report, Status};
use usb_base::{array_at, le_u32_at};

/// How many bytes a wrapper has.
pub const WRAPPER_SIZE: usize = 31;

/// How many bytes a command block has at most.
pub const MOST_COMMAND: u8 = 16;

/// dCBWSignature, `USBC`.
const SIGNATURE: u32 = 0x4342_5355;

/// How many bytes a command may move at most.
pub const MOST_MOVED: u32 = 1_048_576;

/// A command, and what the host expects of it.
#[derive(Clone, Copy)]
pub struct Wrapper {
    /// dCBWTag: the status repeats it.
    pub tag: u32,
    /// dCBWDataTransferLength, in bytes.
    pub length: u32,
    /// The data go to the host.
    pub is_in: bool,
    pub command: Command,
}

impl Wrapper {
    /// The wrapper that these bytes are, if they are one for unit 0 that moves no more than `MOST_MOVED` bytes.
    pub fn read(bytes: &[u8]) -> Option<Wrapper>
        ensures { result ≡ wrapper_of bytes.now }
    {
        if bytes.len() != WRAPPER_SIZE || le_u32_at(bytes, 0) != SIGNATURE {
            return None;
        }
        let length = le_u32_at(bytes, 8);
        if length > MOST_MOVED || bytes[13] != 0 || bytes[14] == 0 || bytes[14] > MOST_COMMAND {
            return None;
        }
        Some(Wrapper {
            tag: le_u32_at(bytes, 4),
            length,
            is_in: bytes[12] >= 0x80,
            command: Command::read(&array_at(bytes, 15)),
        })
    }

    /// How the command ended, where it gave no bytes. Those that the host sent were all used, or none.
    pub fn report(&self, status: Status) -> Report
        ensures { result ≡ report_of self.now status }
    {
        Report {
            tag: self.tag,
            residue: match status {
                Status::Passed => 0,
                Status::Failed | Status::PhaseError => self.length,
            },
            status,
        }
    }
}
