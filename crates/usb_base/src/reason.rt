//! Why a side is refused.

ghost use Rattle.std.specs.Prelude.{◌≡◌};
ghost use Rattle.usb_base.specs.Reason.{number_of, name_of};

/// Why a side is refused. The reasons up to `DuplicateSeq` are the client's, those from `HelloFirst` to `Mismatch` the
/// host's, and the last two those of a USB/IP server.
#[derive(Clone, Copy, Debug, PartialEq, Eq)]
pub enum Reason {
    /// The packet begins neither with USB/IP's version 1.1.1 (a list or import packet) nor with 00 00 (a URB packet).
    Version,
    /// The code of a list or import packet isn't one of this way.
    OpCode,
    /// The command of a URB packet isn't one of this way.
    Command,
    /// The devid isn't that of the exported device.
    Device,
    /// The direction is neither 0 (out) nor 1 (in).
    Direction,
    /// The endpoint is above 15.
    Endpoint,
    /// The transfer is longer than 16,777,216 bytes.
    TooLong,
    /// The number of isochronous packets is above 1,024, and doesn't mean none.
    Packets,
    /// A URB request came of a client that hasn't imported the device.
    NotImported,
    /// A list or import request came of a client that has imported the device.
    AlreadyImported,
    /// The number of a submit is that of one in flight.
    DuplicateSeq,
    /// The first packet isn't a hello, or a later one is.
    HelloFirst,
    /// usbredir has no packet of this type.
    UnknownType,
    /// The packet wants a capability that isn't agreed.
    NotAgreed,
    /// The packet goes the other way only.
    WrongWay,
    /// The header's length isn't one that the form has.
    BadLength,
    /// A count is above its limit.
    Count,
    /// The header's length is above 16,777,280.
    TooLong26,
    /// The data's length isn't the one that the packet tells.
    DataLength,
    /// An answer isn't that of its request.
    Mismatch,
    /// An answer has the number of no request.
    Stray,
    /// An answer is longer than its request asked for.
    Length,
}

impl Reason {
    /// The number that a refusal line prints.
    pub fn number(self) -> u32
        ensures { result ≡ number_of self }
    {
        match self {
            Reason::Version => 1,
            Reason::OpCode => 2,
            Reason::Command => 3,
            Reason::Device => 4,
            Reason::Direction => 5,
            Reason::Endpoint => 6,
            Reason::TooLong => 7,
            Reason::Packets => 8,
            Reason::NotImported => 9,
            Reason::AlreadyImported => 10,
            Reason::DuplicateSeq => 11,
            Reason::HelloFirst => 20,
            Reason::UnknownType => 21,
            Reason::NotAgreed => 22,
            Reason::WrongWay => 23,
            Reason::BadLength => 24,
            Reason::Count => 25,
            Reason::TooLong26 => 26,
            Reason::DataLength => 27,
            Reason::Mismatch => 28,
            Reason::Stray => 40,
            Reason::Length => 41,
        }
    }

    /// The name that a refusal line prints, in ASCII.
    pub fn name(self) -> &'static str
        ensures { result.now ≡ name_of self }
    {
        match self {
            Reason::Version => "Version",
            Reason::OpCode => "OpCode",
            Reason::Command => "Command",
            Reason::Device => "Device",
            Reason::Direction => "Direction",
            Reason::Endpoint => "Endpoint",
            Reason::TooLong => "TooLong",
            Reason::Packets => "Packets",
            Reason::NotImported => "NotImported",
            Reason::AlreadyImported => "AlreadyImported",
            Reason::DuplicateSeq => "DuplicateSeq",
            Reason::HelloFirst => "HelloFirst",
            Reason::UnknownType => "UnknownType",
            Reason::NotAgreed => "NotAgreed",
            Reason::WrongWay => "WrongWay",
            Reason::BadLength => "BadLength",
            Reason::Count => "Count",
            Reason::TooLong26 => "TooLong26",
            Reason::DataLength => "DataLength",
            Reason::Mismatch => "Mismatch",
            Reason::Stray => "Stray",
            Reason::Length => "Length",
        }
    }
}
