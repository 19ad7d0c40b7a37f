//! The items of a history.

use redir_data::RedirPacket;
use redir_wire::Header;
use usb_base::Reason;
use usbip_urb::ClientPacket;

/// What comes of the streams: a packet that has become whole, at the place where it begins, a wrong place, or the end
/// of a side. Places count bytes from the first of a stream, which for a client is its own first.
#[derive(Drop)]
pub enum Item {
    /// A packet of the client.
    Asked {
        place: u64,
        packet: ClientPacket,
    },
    ClientWrong {
        place: u64,
        reason: Reason,
    },
    ClientLeft,
    /// A packet of the host.
    Told {
        place: u64,
        header: Header,
        packet: RedirPacket,
    },
    HostWrong {
        place: u64,
        reason: Reason,
    },
    HostLeft,
}
