//! The requests that end with their stream: their answers first, and then they go.

ghost use Rattle.std.specs.Prelude.{◌≡◌, ◌<◌, ◌++◌, length, filter, OnOk, OnErr};
ghost use Rattle.std.specs.List.{flat_map};
ghost use Rattle.unlink_race.specs.Searches.{ended_by};
ghost use Rattle.gate_parts.specs.state.Rows.{ended_bytes};
ghost use Rattle.gate_core.specs.inner.host.StreamEnd.{HasDropped, is_told, status_bytes, HasStreamEnd};
ghost use Rattle.gate_core.specs.inner.state.Holds.{IsKept};
ghost use Rattle.usb_base.specs.Writes.{Begins};

use crate::state::kept::Kept;
use gate_parts::write_end_of;
use unlink_race::StreamEnd;
use usb_base::{Bytes, Memory, UsbStatus};

impl Kept {
    /// Appends the answers of the requests whose stream ends so, with this status and in order of submission.
    pub fn write_ends(
        &self,
        end: &StreamEnd,
        status: i32,
        to_client: &mut Bytes,
    ) -> Result<(), Memory>
        requires { IsKept self.now }
        ensures ok { OnOk result (to_client.new ≡ to_client.old ++ flat_map (ended_bytes end.now status) self.now.lives.live) }
        ensures err { OnErr result (Begins to_client.old to_client.new) }
        ensures wants { OnErr result (0 < length (filter (ended_by end.now) self.now.lives.live)) }
    {
        for live in self.lives.iter() {
            write_end_of(self.alloc, live, end, status, to_client)?;
        }
        Ok(())
    }

    /// The requests whose stream ends so are gone, and were answered.
    pub fn drop_ended(&mut self, end: &StreamEnd)
        requires kept { IsKept self.old }
        ensures kept { IsKept self.new }
        ensures dropped { HasDropped end.now self.old self.new }
    {
        let before = self.lives.len();
        self.lives.drop_ended(end);
        let ended = before - self.lives.len();
        self.answered = self.answered.saturating_add(ended as u64);
    }

    /// The host tells this of the stream of an endpoint: any status but success ends it, and is that of the requests
    /// that wait for its packets.
    pub fn end_stream(
        &mut self,
        endpoint: u8,
        status: UsbStatus,
        to_client: &mut Bytes,
    ) -> Result<(), Memory>
        requires kept { IsKept self.old }
        ensures kept { IsKept self.new }
        ensures ended { OnOk result (HasStreamEnd endpoint status self.old self.new) }
        ensures sent { OnOk result (to_client.new ≡ to_client.old ++ flat_map (status_bytes endpoint status) self.old.lives.live) }
        ensures same { OnErr result (self.new ≡ self.old) }
        ensures err { OnErr result (Begins to_client.old to_client.new) }
        ensures wants { OnErr result (0 < length (filter (is_told endpoint status) self.old.lives.live)) }
    {
        if status.is_success() {
            return Ok(());
        }
        let end = StreamEnd::Told(endpoint);
        self.write_ends(&end, status.errno(), to_client)?;
        self.drop_ended(&end);
        self.streams.lower_at(endpoint);
        Ok(())
    }
}
