//! What is made of a submit.

ghost use Rattle.std.specs.Prelude.{◌≡◌};
ghost use Rattle.gate_history.specs.client.Verdict.{pipe_kind};

use control_route::Route;
use usb_base::{EpKind, EpRow};

/// The kinds of transfers of which each is one packet to the host and one back.
#[derive(Clone, Copy)]
pub enum Pipe {
    Control,
    Bulk,
    InterruptOut,
}

impl Pipe {
    /// The kind of endpoints that have such transfers.
    pub fn kind(self) -> EpKind
        ensures { result ≡ pipe_kind self }
    {
        match self {
            Pipe::Control => EpKind::Control,
            Pipe::Bulk => EpKind::Bulk,
            Pipe::InterruptOut => EpKind::Interrupt,
        }
    }
}

/// What a verdict goes by, beside the request itself: how things stand where the submit comes.
#[derive(Clone, Copy)]
pub struct Situation {
    /// The device was lost since the client imported it.
    pub lost: bool,
    /// How many submits are live.
    pub live: usize,
    /// One of them is a change of the device's interfaces.
    pub changing: bool,
    /// What was told of the submit's endpoint.
    pub row: EpRow,
    /// Bulk packets have 32 bits for their lengths.
    pub wide: bool,
}

/// The longest transfer where a packet has 16 bits for its length, in bytes.
pub const MAX_NARROW: u32 = u16::MAX as u32;

/// A law: the number that definitions name is this.
pub fn narrow_limit()
    ensures { MAX_NARROW ≡ 65535 }
{}

/// What is made of a submit.
#[derive(Clone, Copy)]
pub enum Verdict {
    /// It is answered at once with this status.
    Now(i32),
    /// It goes to the host as a packet of its own kind.
    Wire(Pipe),
    /// It goes to the host by the packets of its route.
    Routed(Route),
    /// It goes to the host as isochronous packets by the stream of an endpoint that has this row, and is answered at
    /// once.
    IsoOut(EpRow),
    /// It waits for the packets of its endpoint's stream, which keeps this row.
    Stream(EpRow),
}
