//! The list and import packets of USB/IP, as plain data.

use crate::code::{BUS_ID_SIZE, PATH_SIZE};
use packet_stream::{Read, ReadError};
use usb_base::List;

/// A device as a list or an import tells it, 312 bytes ("usbip_protocol", OP_REP_DEVLIST). The texts end at
/// their first zero byte. The numbers are in the units of the protocol: `version` is bcdDevice, `speed` is 1
/// (low), 2 (full), 3 (high) or 5 (super).
#[derive(Clone, Copy)]
pub struct DeviceRow {
    pub path: [u8; PATH_SIZE],
    pub busid: [u8; BUS_ID_SIZE],
    pub busnum: u32,
    pub devnum: u32,
    pub speed: u32,
    pub vendor: u16,
    pub product: u16,
    pub version: u16,
    pub class: u8,
    pub subclass: u8,
    pub protocol: u8,
    pub configuration: u8,
    pub configurations: u8,
    pub interfaces: u8,
}

/// An interface as a list tells it, 4 bytes. Senders write `pad` as 0, readers keep any value.
#[derive(Clone, Copy)]
pub struct IfaceRow {
    pub class: u8,
    pub subclass: u8,
    pub protocol: u8,
    pub pad: u8,
}

/// The interfaces of a listed device, in wire order.
pub type IfaceRows = List<IfaceRow>;

/// A device in a list, with its interfaces: as many as `device.interfaces` says.
#[derive(Drop)]
pub struct Listed {
    pub device: DeviceRow,
    pub interfaces: IfaceRows,
}

/// The devices of a list, in wire order.
pub type ListedRows = List<Listed>;

/// A list or import packet. A reply with a status other than 0 tells no device.
#[derive(Drop)]
pub enum OpPacket {
    /// Asks for the list of devices (OP_REQ_DEVLIST, 8 bytes). Any status is kept.
    ReqDevlist {
        status: u32,
    },
    /// Asks for a device (OP_REQ_IMPORT, 40 bytes). Any status is kept.
    ReqImport {
        status: u32,
        busid: [u8; BUS_ID_SIZE],
    },
    /// The list (OP_REP_DEVLIST), of at most 1,024 devices; with a status other than 0, 8 bytes.
    RepDevlist {
        status: u32,
        devices: ListedRows,
    },
    /// The device (OP_REP_IMPORT, 320 bytes); with a status other than 0 none, and 8 bytes.
    RepImport {
        status: u32,
        device: Option<DeviceRow>,
    },
}

/// Which way packets go: requests to a server, or its replies.
#[derive(Clone, Copy)]
pub enum OpWay {
    Request,
    Reply,
}

/// What is read of the front of bytes.
pub type OpRead = Read<OpPacket>;

/// Why nothing is read: the packet is wrong, or no memory was left for the rows of a whole list.
pub type OpError = ReadError;
