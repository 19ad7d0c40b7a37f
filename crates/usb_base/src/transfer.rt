//! Transfers of a device, and what came of them.

use crate::endpoint::EpAddr;
use crate::list::Bytes;
use crate::setup::Setup;
use crate::status::UsbStatus;

/// A transfer that is asked of a device. Those of endpoint 0 have a setup, and byte 0x00 or 0x80 by its
/// direction.
#[derive(Drop)]
pub struct Transfer {
    pub ep: EpAddr,
    pub setup: Option<Setup>,
    /// For IN the number of bytes that are asked for, for OUT that of the body.
    pub wanted: u32,
    /// What goes to the device; empty for IN.
    pub body: Bytes,
}

/// What came of a transfer.
#[derive(Drop)]
pub struct Outcome {
    pub status: UsbStatus,
    /// How many bytes were moved; for IN as many as the body has.
    pub done: u32,
    /// What came from the device; empty for OUT.
    pub body: Bytes,
}

/// A packet of an endpoint that sends by itself: isochronous IN, or interrupt IN.
#[derive(Drop)]
pub struct StreamPacket {
    pub status: UsbStatus,
    pub body: Bytes,
}
