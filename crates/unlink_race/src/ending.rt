//! What the host's answer makes of a request that may be being unlinked.

ghost use Rattle.std.specs.Prelude.{◌≡◌};
ghost use Rattle.unlink_race.specs.Endings.{ending_of};

use crate::live::{Live, LiveKind};
use usb_base::UsbStatus;

/// Which answers a client gets for a request that its host has answered.
#[derive(Clone, Copy, PartialEq, Eq)]
pub enum Ending {
    /// No unlink came: the submit is answered.
    Completed,
    /// The host took it back in time: the unlink `by` is answered -104 (ECONNRESET), and the submit not at all.
    Unlinked { by: u32 },
    /// It was carried out before the unlink `by` reached the host: the submit is answered, and then the unlink,
    /// with 0.
    CompletedThenLate { by: u32 },
}

/// How a request ends by an answer of this status. A request that went by a route can't be taken back.
pub fn ending_of(live: &Live, status: UsbStatus) -> Ending
    ensures { result ≡ ending_of live.now.unlinker live.now.kind status }
{
    match (live.unlinker, live.kind, status) {
        (None, _, _) => Ending::Completed,
        (Some(by), LiveKind::Wire { .. }, UsbStatus::Cancelled) => Ending::Unlinked { by },
        (Some(by), _, _) => Ending::CompletedThenLate { by },
    }
}
