//! What is kept of the items that have come.

ghost use Rattle.std.specs.Prelude.{◌≤◌, IfOk};
ghost use Rattle.gate_core.specs.inner.state.Holds.{IsFirst, IsKept};

use gate_history::{Facts, Sides};
use gate_parts::{StreamIds, Streams};
use std::alloc::Global;
use unlink_race::Lives;
use usb_base::Memory;

/// The requests in flight, what the host has told, where both sides stand, the streams that are up, the ids that were
/// drawn, and what was counted.
#[derive(Drop)]
pub struct Kept {
    /// Gives the memory of answers, and of what streams hold.
    pub alloc: Global,
    /// The requests in flight.
    pub lives: Lives,
    /// What the host has told of its device since that was last lost.
    pub facts: Facts,
    /// Where both sides stand.
    pub sides: Sides,
    /// The streams that are up, by their endpoints' places in a table.
    pub streams: Streams,
    /// The ids of what started and stopped them.
    pub stream_ids: StreamIds,
    /// The fence, the id of the last stop that a client's leaving sent, until the host has answered it or the device is
    /// lost: no import passes it.
    pub fence: Option<u64>,
    /// The id that was drawn last.
    pub last: u64,
    /// RET_SUBMITs that were sent.
    pub answered: u64,
    /// RET_UNLINKs with -104 that were sent.
    pub unlinked: u64,
    /// Submits that ended with their client.
    pub dropped: u64,
}

impl Kept {
    /// Nothing has come yet. The first packet to the host gets the first id.
    pub fn make(alloc: Global, first_id: u64) -> Result<Kept, Memory>
        requires { 1 ≤ first_id }
        ensures first { IfOk result (λ kept. IsFirst kept first_id) }
        ensures kept { IfOk result (λ kept. IsKept kept) }
    {
        Ok(Kept {
            alloc,
            lives: Lives::make(alloc)?,
            facts: Facts::none(),
            sides: Sides::none(),
            streams: Streams::none(),
            stream_ids: StreamIds::none(),
            fence: None,
            last: first_id - 1,
            answered: 0,
            unlinked: 0,
            dropped: 0,
        })
    }
}
