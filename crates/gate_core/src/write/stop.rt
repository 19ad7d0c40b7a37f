//! The stops of streams, where their client leaves and before a change of the device's interfaces.

ghost use Rattle.std.specs.Prelude.{◌≡◌, ◌<◌, ◌++◌, length, OnOk, OnErr, IfOk};
ghost use Rattle.gate_history.specs.state.Ups.{is_ended};
ghost use Rattle.gate_history.specs.write.Packets.{stop_of};
ghost use Rattle.gate_core.specs.inner.state.SentIds.{stops_of, sent_ids_of, after_stops, bytes_of};
ghost use Rattle.gate_core.specs.inner.state.Holds.{IsKept};
ghost use Rattle.usb_base.specs.Writes.{Begins};

use crate::state::kept::Kept;
use control_route::Route;
use gate_parts::{SentIds, is_ended, write_stop};
use stream_buffers::Up;
use usb_base::{Bytes, Memory};

impl Kept {
    /// What is kept where nothing more was started or stopped.
    fn sent_ids(&self) -> SentIds
        ensures { result ≡ sent_ids_of self.now }
    {
        SentIds {
            stream_ids: self.stream_ids,
            last: self.last,
            fence: self.fence,
        }
    }

    /// Appends the stops of the streams that end with a route, or of all where there is none, by their places. It gives
    /// what is to be kept of them.
    pub fn write_stops(&self, by: Option<Route>, to_host: &mut Bytes) -> Result<SentIds, Memory>
        requires { IsKept self.now }
        ensures sent { OnOk result (to_host.new ≡ to_host.old ++ bytes_of self.now self.now.last (stops_of self.now by)) }
        ensures sent_ids { IfOk result (λ sent_ids. sent_ids ≡ after_stops self.now (sent_ids_of self.now) (stops_of self.now by)) }
        ensures err { OnErr result (Begins to_host.old to_host.new) }
        ensures wants { OnErr result (0 < length (stops_of self.now by)) }
    {
        let mut sent_ids = self.sent_ids();
        for stream in self.streams.as_slice() {
            self.write_stop_of(stream, by, &mut sent_ids, to_host)?;
        }
        Ok(sent_ids)
    }

    /// Appends the stop of a stream that is up and ends.
    fn write_stop_of(
        &self,
        stream: &Option<Up>,
        by: Option<Route>,
        sent_ids: &mut SentIds,
        to_host: &mut Bytes,
    ) -> Result<(), Memory>
        requires { IsKept self.now }
        ensures sent { OnOk result (to_host.new ≡ to_host.old ++ bytes_of self.now sent_ids.old.last (stop_of (is_ended by) stream.now)) }
        ensures sent_ids { OnOk result (sent_ids.new ≡ after_stops self.now sent_ids.old (stop_of (is_ended by) stream.now)) }
        ensures err { OnErr result (to_host.new ≡ to_host.old) }
        ensures wants { OnErr result (0 < length (stop_of (is_ended by) stream.now)) }
    {
        match stream {
            Some(up) if is_ended(up, by) => {
                let id = self.draw(sent_ids.last);
                write_stop(up, id, self.sides.agreed, to_host)?;
                sent_ids.stream_ids.stop(up.ep(), id);
                sent_ids.last = id;
                sent_ids.fence = Some(id);
                Ok(())
            }
            _ => Ok(()),
        }
    }
}
