//! Numbers and the name in the packets that the gateway sends.

ghost use Rattle.std.specs.Prelude.{◌≡◌, codes};

/// The name in its hello.
pub const GATEWAY_NAME: [u8; 9] = *b"usbgate 1";

/// A law: the name that definitions have is this.
pub fn gateway_name()
    ensures { GATEWAY_NAME ≡ codes "usbgate 1" }
{}

/// `pkts_per_urb` of a start_iso_stream: how many isochronous packets each of the host's URBs has.
pub const PACKETS_PER_URB: u8 = 8;

/// `no_urbs` of a start_iso_stream: how many URBs the host keeps in flight for the stream.
pub const STREAM_URBS: u8 = 4;

/// A law: the numbers that definitions name are these.
pub fn iso_start_numbers()
    ensures packets { PACKETS_PER_URB ≡ 8 }
    ensures urbs { STREAM_URBS ≡ 4 }
{}
