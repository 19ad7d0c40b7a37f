//! What the first eight bytes of a packet say: the version, what the packet is, and the status of a reply; and what a
//! list is kept to.

ghost use Rattle.std.specs.Prelude.{◌≡◌, codes};

use crate::exported::{BUS_ID, BUS_NUMBER, DEVICE_NUMBER};

/// The protocol's version 1.1.1.
pub const USBIP_VERSION: u16 = 0x0111;

/// Asks for the list of devices.
pub const OP_REQ_DEVLIST: u16 = 0x8005;
/// Answers with the list of devices.
pub const OP_REP_DEVLIST: u16 = 0x0005;
/// Asks for the use of a device.
pub const OP_REQ_IMPORT: u16 = 0x8003;
/// Answers whether the device may be used.
pub const OP_REP_IMPORT: u16 = 0x0003;

/// The status of a list, and of an import that succeeds: Linux's `ST_OK`.
pub const ST_OK: u32 = 0;
/// The status of an import that fails, where the device is not available: Linux's `ST_NA`.
pub const ST_NA: u32 = 1;

/// How many bytes a packet has at least: the version, its code and its status.
pub const HEADER_SIZE: usize = 8;
/// How many bytes a list has before its devices: the header, and how many they are.
pub const LIST_HEADER_SIZE: usize = 12;
/// How many bytes a device's path has, with the zeros behind it.
pub const PATH_SIZE: usize = 256;
/// How many bytes a bus id has, with the zeros behind it.
pub const BUS_ID_SIZE: usize = 32;
/// How many bytes a device has, without its interfaces. The last of them is the number of those.
pub const DEVICE_SIZE: usize = 312;
/// How many bytes an interface has.
pub const INTERFACE_SIZE: usize = 4;

/// How many devices a list may have.
pub const MAX_DEVICES: u32 = 1024;

/// A law: the numbers that definitions name are these.
pub fn protocol_numbers()
    ensures version { USBIP_VERSION ≡ 0x0111 }
    ensures list { (OP_REQ_DEVLIST ≡ 0x8005) × (OP_REP_DEVLIST ≡ 0x0005) }
    ensures import { (OP_REQ_IMPORT ≡ 0x8003) × (OP_REP_IMPORT ≡ 0x0003) }
    ensures statuses { (ST_OK ≡ 0) × (ST_NA ≡ 1) }
    ensures headers { (HEADER_SIZE ≡ 8) × (LIST_HEADER_SIZE ≡ 12) }
    ensures rows { (PATH_SIZE ≡ 256) × (BUS_ID_SIZE ≡ 32) × (DEVICE_SIZE ≡ 312) × (INTERFACE_SIZE ≡ 4) }
    ensures devices { MAX_DEVICES ≡ 1024 }
    ensures exported { (BUS_ID ≡ codes "1-1") × (BUS_NUMBER ≡ 1) × (DEVICE_NUMBER ≡ 2) }
{}
