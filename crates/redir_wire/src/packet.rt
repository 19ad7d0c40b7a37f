//! The packets of usbredir that move no data of a transfer, as values (protocol description, version 0.7).

use packet_stream::{Read, ReadError};
use usb_base::{Boxed, ENDPOINTS, List};

/// How many words of capabilities a hello may have. The limit is this gateway's own.
pub const MAX_HELLO_WORDS: u32 = 32;

/// How many interfaces an interface_info may have.
pub const MAX_INTERFACES: u32 = 32;

/// How many cells each field of an interface_info has.
pub const INTERFACE_CELLS: usize = MAX_INTERFACES as usize;

/// Which way a packet goes: to the guest, who uses the device, or to the host, who has it.
#[derive(Clone, Copy, PartialEq, Eq)]
pub enum Way {
    ToGuest,
    ToHost,
}

/// Capabilities, a flag each: bit n says that capability n is there.
#[derive(Clone, Copy)]
pub struct Caps(pub u32);

/// Capability words, bit 0 of the first word being capability 0.
pub type Words = List<u32>;

/// `usb_redir_hello`: who a side is, and what it can do.
#[derive(Drop)]
pub struct Hello {
    /// A text that names the program, with zeros after it.
    pub version: [u8; 64],
    /// The side's capabilities, at most [`MAX_HELLO_WORDS`].
    pub words: Words,
}

/// `usb_redir_device_connect`: a device is there.
#[derive(Clone, Copy)]
pub struct Connect {
    /// 0 low, 1 full, 2 high, 3 super, 255 unknown.
    pub speed: u8,
    /// The device's class code.
    pub class: u8,
    /// The device's subclass code.
    pub subclass: u8,
    /// The device's protocol code.
    pub protocol: u8,
    /// The vendor's number.
    pub vendor: u16,
    /// The vendor's number for the product.
    pub product: u16,
    /// The device's release in binary-coded decimal, 0 where it isn't sent.
    pub version: u16,
}

/// `usb_redir_interface_info`: the interfaces of the active configuration, in the first `count` cells of
/// each field.
#[derive(Clone, Copy)]
pub struct InterfaceInfo {
    /// How many interfaces there are, at most 32.
    pub count: u32,
    /// Their numbers.
    pub interface: [u8; INTERFACE_CELLS],
    /// Their class codes.
    pub class: [u8; INTERFACE_CELLS],
    /// Their subclass codes.
    pub subclass: [u8; INTERFACE_CELLS],
    /// Their protocol codes.
    pub protocol: [u8; INTERFACE_CELLS],
}

/// `usb_redir_ep_info`: the endpoints. Cells 0 to 15 are those to the device, 16 to 31 those from it.
#[derive(Drop)]
pub struct EpInfo {
    /// 0 control, 1 isochronous, 2 bulk, 3 interrupt, 255 none.
    pub kinds: [u8; ENDPOINTS],
    /// The polling intervals, as the endpoints' descriptors have them.
    pub interval: [u8; ENDPOINTS],
    /// The numbers of the interfaces that they belong to.
    pub interface: [u8; ENDPOINTS],
    /// Their largest packets in bytes, 0 where they aren't sent.
    pub max_packet: [u16; ENDPOINTS],
}

/// `usb_redir_header`: what stands before each packet's fields.
#[derive(Clone, Copy)]
pub struct Header {
    /// The number of the packet's type.
    pub kind: u32,
    /// How many bytes follow the header.
    pub length: u32,
    /// The number that an answer shares with its request.
    pub id: u64,
}

/// A packet that moves no data of a transfer. A `status` is 0 for success, else the byte of a `UsbStatus`; an
/// `endpoint` is the byte of its address. The three that have more than 100 bytes lie on the heap, so that no other
/// is moved as that many.
#[derive(Drop)]
pub enum RedirControl {
    /// Type 0, both ways: the first packet of its stream.
    Hello(Boxed<Hello>),
    /// Type 1, to the guest.
    Connect(Connect),
    /// Type 2, to the guest: the device is gone.
    Disconnect,
    /// Type 3, to the host: resets the device.
    Reset,
    /// Type 4, to the guest.
    InterfaceInfo(Boxed<InterfaceInfo>),
    /// Type 5, to the guest.
    EpInfo(Boxed<EpInfo>),
    /// Type 6, to the host.
    SetConfiguration {
        configuration: u8,
    },
    /// Type 7, to the host.
    GetConfiguration,
    /// Type 8, to the guest: answers types 6 and 7 with the configuration that is active then.
    ConfigurationStatus {
        status: u8,
        configuration: u8,
    },
    /// Type 9, to the host.
    SetAlt {
        interface: u8,
        alt: u8,
    },
    /// Type 10, to the host.
    GetAlt {
        interface: u8,
    },
    /// Type 11, to the guest: answers types 9 and 10 with the setting that is active then.
    AltStatus {
        status: u8,
        interface: u8,
        alt: u8,
    },
    /// Type 12, to the host: packets of this endpoint are to come, `pkts_per_urb` in each of `no_urbs` URBs.
    StartIso {
        endpoint: u8,
        pkts_per_urb: u8,
        no_urbs: u8,
    },
    /// Type 13, to the host.
    StopIso {
        endpoint: u8,
    },
    /// Type 14, to the guest: answers types 12 and 13, or tells that the stream has ended.
    IsoStatus {
        status: u8,
        endpoint: u8,
    },
    /// Type 15, to the host: packets of this endpoint are to come.
    StartInterrupt {
        endpoint: u8,
    },
    /// Type 16, to the host.
    StopInterrupt {
        endpoint: u8,
    },
    /// Type 17, to the guest: answers types 15 and 16, or tells that the stream has ended.
    InterruptStatus {
        status: u8,
        endpoint: u8,
    },
    /// Type 21, to the host: cancels the data packet that has this packet's id.
    Cancel,
    /// Type 24, to the host, with `DISCONNECT_ACK`: a disconnect was seen.
    DisconnectAck,
}

/// What stands at the front of the bytes: a header and how many bytes it has, less than one, or a wrong
/// place. It is never `Memory`.
pub type HeaderRead = Result<Read<Header>, ReadError>;

/// Why no packet was read.
pub type WireError = ReadError;
