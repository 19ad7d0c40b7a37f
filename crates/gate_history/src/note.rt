//! What the gateway tells of an event, beside the bytes that it sends.

ghost use Rattle.std.specs.Prelude.{◌≡◌, ◌<◌, ◌++◌, length, OnOk, OnErr};
ghost use Rattle.std.specs.List.{flat_map};
ghost use Rattle.usb_base.specs.Writes.{Begins};
ghost use Rattle.gate_history.specs.write.Refusals.{refusal_in};

use usb_base::{EpAddr, List, Memory, Refusal};

/// What an event told.
#[derive(Clone, Copy)]
pub enum Note {
    /// The client has imported the device.
    Imported,
    /// A submit was accepted. The id is that of its last packet to the host, 0 where its answer goes by none.
    Submitted { seqnum: u32, id: u64 },
    /// An unlink `by` asks for the submit `target` to be taken back.
    UnlinkAsked { by: u32, target: u32 },
    /// A packet came from an endpoint whose stream is up.
    Arrived { ep: EpAddr },
    /// A submit ended by its answer or by its stream's packets.
    Answered { seqnum: u32 },
    /// The imported device is lost.
    DeviceGone,
    /// The client has left, or was refused.
    ClientGone,
    /// A side was refused.
    Refused(Refusal),
}

/// Notes, in the order in which they were told.
pub type Notes = List<Note>;

/// Appends the refusals among the notes, in order. Only a refusal wants memory.
pub fn push_refusals(notes: &Notes, refusals: &mut List<Refusal>) -> Result<(), Memory>
    ensures pushed { OnOk result (refusals.new ≡ refusals.old ++ flat_map refusal_in notes.now) }
    ensures err { OnErr result (Begins refusals.old refusals.new) }
    ensures wants { OnErr result (0 < length (flat_map refusal_in notes.now)) }
{
    for note in notes.as_slice() {
        if let Note::Refused(refusal) = note {
            refusals.push(*refusal)?;
        }
    }
    Ok(())
}

/// What was counted. Each number stands still at `u64::MAX`.
#[derive(Clone, Copy)]
pub struct Counts {
    /// RET_SUBMITs that were sent.
    pub answered: u64,
    /// RET_UNLINKs with -104 that were sent.
    pub unlinked: u64,
    /// Submits that are live: in flight, and not abandoned.
    pub left: u64,
    /// Submits that ended with their client.
    pub dropped: u64,
}
