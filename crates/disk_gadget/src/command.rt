//! The commands that the disk knows (SPC-4, 6; SBC-3, 5).

ghost use Rattle.std.specs.Prelude.{◌≡◌};
ghost use Rattle.disk_gadget.specs.Commands.{command_of, extent_of};

use usb_base::{be_u16_at, be_u32_at};

/// Blocks one after another.
#[derive(Clone, Copy)]
pub struct Extent {
    /// The first of them.
    pub block: u32,
    /// How many they are.
    pub count: u16,
}

impl Extent {
    /// The blocks that READ (10) or WRITE (10) names.
    pub fn read(bytes: &[u8; 16]) -> Extent
        ensures { result ≡ extent_of bytes.now }
    {
        Extent {
            block: be_u32_at(bytes, 2),
            count: be_u16_at(bytes, 7),
        }
    }
}

/// A command, with the fields that the disk asks for.
#[derive(Clone, Copy)]
pub enum Command {
    TestUnitReady,
    /// REQUEST SENSE, of at most so many bytes.
    RequestSense(u8),
    /// INQUIRY: whether it asks for vital product data, and how many bytes at most.
    Inquiry { vital: bool, most: u16 },
    /// READ CAPACITY (10).
    ReadCapacity,
    /// READ (10).
    Read(Extent),
    /// WRITE (10).
    Write(Extent),
    /// One that the disk doesn't know.
    Unknown,
}

impl Command {
    /// The command of a command block.
    pub fn read(bytes: &[u8; 16]) -> Command
        ensures { result ≡ command_of bytes.now }
    {
        match bytes[0] {
            0x00 => Command::TestUnitReady,
            0x03 => Command::RequestSense(bytes[4]),
            0x12 => Command::Inquiry {
                vital: bytes[1] % 2 == 1,
                most: be_u16_at(bytes, 3),
            },
            0x25 => Command::ReadCapacity,
            0x28 => Command::Read(Extent::read(bytes)),
            0x2A => Command::Write(Extent::read(bytes)),
            _ => Command::Unknown,
        }
    }
}
