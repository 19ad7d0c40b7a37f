//! The protocol's numbers by their names ("usbip_protocol", USBIP_CMD_SUBMIT to USBIP_RET_UNLINK), and the limits
//! that this gateway sets.

ghost use Rattle.std.specs.Prelude.{◌≡◌, ◌+◌, ◌*◌};

use usb_base::{LONGEST_CLIENT_PACKET, MAX_PACKETS, MAX_TRANSFER};
use usbip_op::{BUS_NUMBER, DEVICE_NUMBER};

/// Asks for a transfer.
pub const USBIP_CMD_SUBMIT: u32 = 1;
/// Asks to take back a submit.
pub const USBIP_CMD_UNLINK: u32 = 2;
/// Answers a submit.
pub const USBIP_RET_SUBMIT: u32 = 3;
/// Answers an unlink.
pub const USBIP_RET_UNLINK: u32 = 4;

/// The direction of a transfer to the device.
pub const USBIP_DIR_OUT: u32 = 0;
/// The direction of a transfer from the device.
pub const USBIP_DIR_IN: u32 = 1;

/// In transfer_flags: a read that gives fewer bytes than were asked for has failed.
pub const URB_SHORT_NOT_OK: u32 = 0x0001;

/// A number_of_packets that means none, as 0 does.
pub const NO_PACKETS: u32 = 0xFFFF_FFFF;

/// The devid of the one device that this gateway exports: the number of its bus, and its own.
pub const EXPORTED_DEVID: u32 = (BUS_NUMBER << 16) | DEVICE_NUMBER;
/// The greatest endpoint number.
pub const MAX_ENDPOINT: u32 = 15;
/// How many submits may be in flight.
pub const MAX_LIVE: usize = 4096;
/// The longest isochronous packet, in bytes.
pub const MAX_PACKET_LENGTH: u32 = u16::MAX as u32;

/// How many bytes a packet has up to its body.
pub const HEAD_SIZE: usize = 48;
/// How many bytes a descriptor has.
pub const DESC_SIZE: usize = 16;

/// A law: the numbers that definitions name are these.
pub fn protocol_numbers()
    ensures submit { (USBIP_CMD_SUBMIT ≡ 1) × (USBIP_RET_SUBMIT ≡ 3) }
    ensures unlink { (USBIP_CMD_UNLINK ≡ 2) × (USBIP_RET_UNLINK ≡ 4) }
    ensures directions { (USBIP_DIR_OUT ≡ 0) × (USBIP_DIR_IN ≡ 1) }
    ensures short { URB_SHORT_NOT_OK ≡ 1 }
    ensures device { (EXPORTED_DEVID ≡ 0x0001_0002) × (MAX_ENDPOINT ≡ 15) }
    ensures sizes { (HEAD_SIZE ≡ 48) × (DESC_SIZE ≡ 16) }
    ensures none { NO_PACKETS ≡ 0xFFFF_FFFF }
    ensures limits { (MAX_LIVE ≡ 4096) × (MAX_PACKET_LENGTH ≡ 65535) }
    ensures longest { LONGEST_CLIENT_PACKET ≡ 48 + 16777216 + 1024 * 16 }
    ensures parts { LONGEST_CLIENT_PACKET ≡ HEAD_SIZE + MAX_TRANSFER + MAX_PACKETS * DESC_SIZE }
{}
