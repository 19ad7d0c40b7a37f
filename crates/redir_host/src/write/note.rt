//! What the calls of a host tell.

use usb_base::{List, Reason};

/// What happened as the guest's bytes were taken.
#[derive(Clone, Copy)]
pub enum HostNote {
    /// A request with this id was taken out of its queue by a cancel.
    Cancelled { id: u64 },
    /// Nothing of the guest is read from this place on, which counts bytes from its first and stands still at
    /// `u64::MAX`.
    Refused { place: u64, reason: Reason },
}

/// Notes, in the order in which they came about.
pub type HostNotes = List<HostNote>;

/// What became of an endpoint's first request.
#[derive(Clone, Copy)]
pub enum Performed {
    /// It was performed and answered.
    Done { id: u64 },
    /// There is none, or the device isn't ready for it.
    NotReady,
    /// The device is unplugged.
    Unplugged,
}

/// What became of an offer of an endpoint's stream.
#[derive(Clone, Copy)]
pub enum Offered {
    /// A packet went to the guest.
    Sent,
    /// The device has none.
    Nothing,
    /// No stream of the endpoint runs.
    Closed,
    /// The device is unplugged.
    Unplugged,
}
