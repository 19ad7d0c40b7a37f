//! How long a transfer may be, and so the longest packets, which bound what is kept of each side's stream.

ghost use Rattle.std.specs.Prelude.{◌≡◌};

/// The longest transfer, in bytes: 16 MiB. The limit is this gateway's own.
pub const MAX_TRANSFER: u32 = 16_777_216;

/// The most isochronous packets of a transfer. The limit is this gateway's own.
pub const MAX_PACKETS: u32 = 1_024;

/// A client's longest packet, in bytes: a submit with its head of 48, the longest transfer, and the most descriptors,
/// of 16 bytes each ("usbip_protocol", USBIP_CMD_SUBMIT).
pub const LONGEST_CLIENT_PACKET: usize = 48 + MAX_TRANSFER as usize + MAX_PACKETS as usize * 16;

/// A host's longest packet, in bytes: a header of 16, the longest transfer, and 64 more, which is room for the fields
/// of any data packet (protocol description, section "usb_redir_header").
pub const LONGEST_HOST_PACKET: usize = 16 + MAX_TRANSFER as usize + 64;

/// A law: the limits that definitions name are these.
pub fn transfer_limits()
    ensures transfer { (MAX_TRANSFER ≡ 16777216) × (MAX_PACKETS ≡ 1024) }
    ensures packets { (LONGEST_CLIENT_PACKET ≡ 16793648) × (LONGEST_HOST_PACKET ≡ 16777296) }
{}
