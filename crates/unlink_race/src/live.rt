//! A request in flight.

ghost use Rattle.std.specs.Prelude.{◌≡◌, ◌<◌};
ghost use Rattle.usb_base.specs.declared.endpoint.TheConstants.{ENDPOINTS};
ghost use Rattle.unlink_race.specs.Inner.Lane.{lane_of};
ghost use Rattle.unlink_race.specs.Searches.{is_stream, is_touched_by, ends_with, is_change};

use control_route::Route;
use usb_base::{EpAddr, EpKind};
use usbip_urb::Descs;

/// What a request waits for.
#[derive(Clone, Copy)]
pub enum LiveKind {
    /// The host's answer with its id: it went as a packet with the transfer, of the kind that the endpoint had then.
    Wire { ep: EpAddr, kind: EpKind },
    /// The host's status with its id: it went as packets of its own, by its route.
    Routed(Route),
    /// Packets of an endpoint's stream. The interface is the one that the stream went up with.
    Stream { ep: EpAddr, interface: u8 },
}

/// What ends streams, and with them the requests that wait for their packets.
#[derive(Clone, Copy)]
pub enum StreamEnd {
    /// Their client goes, and all streams with it.
    ClientGone,
    /// The host tells so of the stream of the endpoint with this address. A byte that is no address is that of no
    /// endpoint.
    Told(u8),
    /// This route is carried out, which touches their interfaces.
    Change(Route),
}

impl LiveKind {
    /// Whether it waits for packets of a stream, and not for an answer with its id.
    pub(crate) fn is_stream(&self) -> bool
        ensures { result ≡ is_stream self.now }
    {
        matches!(self, LiveKind::Stream { .. })
    }

    /// Whether it waits for packets of a stream that ends once this route is carried out.
    fn is_touched_by(&self, route: &Route) -> bool
        ensures { result ≡ is_touched_by route.now self.now }
    {
        match self {
            LiveKind::Stream { interface, .. } => control_route::touches(route, *interface),
            _ => false,
        }
    }

    /// Whether it waits for packets of a stream that ends so.
    pub fn ends_with(&self, end: &StreamEnd) -> bool
        ensures { result ≡ ends_with end.now self.now }
    {
        match end {
            StreamEnd::ClientGone => self.is_stream(),
            StreamEnd::Told(byte) => match self {
                LiveKind::Stream { ep, .. } => ep.byte() == *byte,
                _ => false,
            },
            StreamEnd::Change(route) => self.is_touched_by(route),
        }
    }

    /// The lane of its endpoint, and the first for what went by a route.
    pub(crate) fn lane(&self) -> usize
        ensures value { result ≡ lane_of self.now }
        ensures bound { result < ENDPOINTS }
    {
        match self {
            LiveKind::Wire { ep, .. } => ep.index(),
            LiveKind::Routed(_) => 0,
            LiveKind::Stream { ep, .. } => ep.index(),
        }
    }

    /// Whether it changes the device's interfaces.
    pub(crate) fn is_change(&self) -> bool
        ensures { result ≡ is_change self.now }
    {
        match self {
            LiveKind::Routed(route) => control_route::is_change(route),
            _ => false,
        }
    }
}

/// A request in flight: a submit that was accepted and hasn't ended, or that a client which is gone left with the host.
#[derive(Drop)]
pub struct Live {
    /// The submit's number, which its answer has.
    pub seqnum: u32,
    /// The id of the packet whose answer ends it; 0 for one that waits for a stream.
    pub id: u64,
    pub kind: LiveKind,
    /// Whether data go from the device to the client.
    pub is_in: bool,
    /// How many bytes are asked for or sent (transfer_buffer_length of the submit).
    pub wanted: u32,
    /// transfer_flags of the submit.
    pub flags: u32,
    /// number_of_packets of the submit, which its answer echoes.
    pub packets: u32,
    /// Its isochronous packets, in wire order.
    pub descs: Descs,
    /// The number of the unlink that asks for it back.
    pub unlinker: Option<u32>,
}
