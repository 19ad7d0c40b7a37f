//! The usbredir packets that move data, as values, and a packet of either kind.

use packet_stream::Read;
use redir_wire::{Header, RedirControl};
use usb_base::Bytes;

/// A packet of a transfer: a request on its way to the host, or, on the way to the guest, its answer or a packet of a
/// stream. `status` is the byte of a `UsbStatus`, `length` how many bytes were asked for or moved, and `endpoint` the
/// byte of the endpoint's address. Data stand only in packets to the host of an OUT endpoint, and in packets to the
/// guest of an IN endpoint.
#[derive(Drop)]
pub enum RedirData {
    /// Type 100, `usb_redir_control_packet`: `kind` is bmRequestType.
    Control {
        endpoint: u8,
        request: u8,
        kind: u8,
        status: u8,
        value: u16,
        index: u16,
        length: u16,
        body: Bytes,
    },
    /// Type 101, `usb_redir_bulk_packet`. Without `WIDE_BULK_LENGTH` the length is below 65,536.
    Bulk {
        endpoint: u8,
        status: u8,
        length: u32,
        stream: u32,
        body: Bytes,
    },
    /// Type 102, `usb_redir_iso_packet`.
    Iso {
        endpoint: u8,
        status: u8,
        length: u16,
        body: Bytes,
    },
    /// Type 103, `usb_redir_interrupt_packet`.
    Interrupt {
        endpoint: u8,
        status: u8,
        length: u16,
        body: Bytes,
    },
}

/// A packet of usbredir, after its header.
#[derive(Drop)]
pub enum RedirPacket {
    Plain(RedirControl),
    Carrying(RedirData),
}

/// What stands at the front of the bytes: a packet with its header and how many bytes both have, or less
/// than one.
pub type RedirRead = Read<(Header, RedirPacket)>;
