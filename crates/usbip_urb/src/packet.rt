//! The URB packets of USB/IP, as plain data.

ghost use Rattle.std.specs.Prelude.{◌≡◌};
ghost use Rattle.usbip_urb.specs.Errors.{is_failed};

use packet_stream::{Read, ReadError};
use usb_base::{Bytes, List};

/// What each URB packet begins with, after its command: 16 bytes.
#[derive(Clone, Copy)]
pub struct Head {
    /// The number that an answer shares with its request.
    pub seqnum: u32,
    /// The device: its bus number in the upper 16 bits, and its device number in the lower.
    pub devid: u32,
    /// 0 is OUT, to the device, and 1 is IN. In answers it may be any number.
    pub direction: u32,
    /// The endpoint's number. In answers it may be any number.
    pub ep: u32,
}

/// An isochronous packet of a request, 16 bytes: its stretch of the transfer buffer, in bytes, and what came
/// of it.
#[derive(Clone, Copy)]
pub struct IsoDesc {
    pub offset: u32,
    pub length: u32,
    /// How many bytes were moved.
    pub actual: u32,
    /// 0, or the negative of a Linux error number.
    pub status: i32,
}

impl IsoDesc {
    /// Whether it has a status other than 0.
    pub fn is_failed(&self) -> bool
        ensures { result ≡ is_failed self.now.status }
    {
        self.status != 0
    }
}

/// The isochronous packets of a request, in wire order.
pub type Descs = List<IsoDesc>;

/// Asks for a transfer (USBIP_CMD_SUBMIT): 48 bytes, the body where the direction is OUT, and the descriptors.
#[derive(Drop)]
pub struct Submit {
    pub head: Head,
    /// transfer_flags of the URB.
    pub flags: u32,
    /// transfer_buffer_length, in bytes.
    pub length: u32,
    pub start_frame: u32,
    /// number_of_packets: 1 to 1,024 is the number of descriptors, and 0 and 4,294,967,295 mean none.
    pub packets: u32,
    pub interval: u32,
    /// The setup of a control transfer, else zeros.
    pub setup: [u8; 8],
    pub body: Bytes,
    pub descs: Descs,
}

/// Answers a submit (USBIP_RET_SUBMIT): 48 bytes, the body where the request was IN, and the descriptors.
#[derive(Drop)]
pub struct RetSubmit {
    pub head: Head,
    /// 0, or the negative of a Linux error number.
    pub status: i32,
    /// actual_length, in bytes.
    pub actual: u32,
    pub start_frame: u32,
    /// number_of_packets, as in `Submit`.
    pub packets: u32,
    /// error_count: how many descriptors have a status other than 0.
    pub errors: u32,
    /// Eight bytes that senders write as 0.
    pub tail: [u8; 8],
    pub body: Bytes,
    pub descs: Descs,
}

/// Asks to take back a submit (USBIP_CMD_UNLINK), 48 bytes.
#[derive(Clone, Copy)]
pub struct Unlink {
    pub head: Head,
    /// The number of the submit.
    pub target: u32,
    /// Bytes that senders write as 0.
    pub pad: [u8; 24],
}

/// Answers an unlink (USBIP_RET_UNLINK), 48 bytes.
#[derive(Clone, Copy)]
pub struct RetUnlink {
    pub head: Head,
    /// -104 (ECONNRESET) where this unlink took the submit back, and else 0.
    pub status: i32,
    /// Bytes that senders write as 0.
    pub pad: [u8; 24],
}

/// A URB packet.
#[derive(Drop)]
pub enum UrbPacket {
    Submit(Submit),
    RetSubmit(RetSubmit),
    Unlink(Unlink),
    RetUnlink(RetUnlink),
}

/// What stands at the front of the bytes: a packet and how many bytes it has, or less than one.
pub type UrbRead = Read<UrbPacket>;

/// Why nothing was read.
pub type UrbError = ReadError;
