//! What the one device that this gateway exports is called: its fields in a list ("usbip_protocol", OP_REP_DEVLIST).

/// Its bus id, a text.
pub const BUS_ID: [u8; 3] = *b"1-1";

/// The number of its bus.
pub const BUS_NUMBER: u32 = 1;

/// Its number on that bus.
pub const DEVICE_NUMBER: u32 = 2;
