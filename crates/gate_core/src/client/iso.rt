//! Isochronous transfers to the device: their packets go to the host by a stream, and are answered at once.

ghost use Rattle.std.specs.Prelude.{◌≡◌, ◌≤◌, ◌++◌, None, [], length, OnOk, OnErr, IfOk};
ghost use Rattle.usb_base.specs.declared.limits.TheConstants.{MAX_TRANSFER};
ghost use Rattle.gate_history.specs.state.Ids.{last_of};
ghost use Rattle.gate_history.specs.state.Ups.{stream_at};
ghost use Rattle.gate_history.specs.declared.verdict.Verdict.TheVariants.{IsoOut};
ghost use Rattle.gate_history.specs.step.Marks.{Opens};
ghost use Rattle.gate_history.specs.state.State.{State};
ghost use Rattle.gate_history.specs.write.Packets.{iso_packets};
ghost use Rattle.gate_history.specs.step.Meaning.{mark_as, submission};
ghost use Rattle.gate_history.specs.state.Sound.{IsSound};
ghost use Rattle.gate_history.specs.write.Asked.{HasItsPackets};
ghost use Rattle.gate_history.specs.client.Carried.{IsLaid};
ghost use Rattle.gate_core.specs.inner.state.SentIds.{ids_after, starts_of, start_id, bytes_of, HasRaised};
ghost use Rattle.gate_core.specs.inner.state.Holds.{IsKept, Holds, Does, StopsShort};
ghost use Rattle.usb_base.specs.Writes.{Begins};

use crate::state::kept::Kept;
use gate_history::{Note, Request};
use gate_parts::{Outputs, write_all_sent, write_start};
use redir_data::write_iso_out;
use usb_base::{Bytes, EpAddr, EpRow, Memory};
use usbip_urb::part;

impl Kept {
    /// An isochronous transfer goes to the host, a packet for each of its descriptors, and is answered.
    pub fn send_iso(
        &mut self,
        row: EpRow,
        request: &Request,
        out: &mut Outputs,
    ) -> Result<(), Memory>
        requires kept { IsKept self.old }
        requires laid { IsLaid request.now }
        requires packets { HasItsPackets request.now.packets request.now.descs }
        requires few_bytes { request.now.transfer.wanted ≤ MAX_TRANSFER }
        ensures kept { IsKept self.new }
        ensures ok { (st : State) → Holds self.old st → IsSound st
            → OnOk result (Does st (mark_as st (Opens (submission st request.now (IsoOut row) [])) None) self.old self.new out.old out.new) }
        ensures err { OnErr result (StopsShort self.old self.new out.old out.new) }
    {
        let seqnum = request.seqnum;
        out.notes.push(Note::Submitted { seqnum, id: 0 })?;
        let ep = request.transfer.ep;
        let started = self.write_start(ep, row, &mut out.to_host)?;
        let before = started.unwrap_or(self.last);
        let last = self.write_packets(request, before, &mut out.to_host)?;
        write_all_sent(self.alloc, &request.asked(), &mut out.to_client)?;
        self.answered = self.answered.saturating_add(1);
        self.raise(ep, row, started);
        self.last = last;
        Ok(())
    }

    /// Appends the start of an endpoint's stream, and gives its id: none where the stream is up.
    pub fn write_start(
        &self,
        ep: EpAddr,
        row: EpRow,
        to_host: &mut Bytes,
    ) -> Result<Option<u64>, Memory>
        requires { IsKept self.now }
        ensures sent { OnOk result (to_host.new ≡ to_host.old ++ bytes_of self.now self.now.last (starts_of self.now ep row)) }
        ensures id { IfOk result (λ id. id ≡ start_id self.now ep) }
        ensures err { OnErr result (to_host.new ≡ to_host.old) }
        ensures wants { OnErr result (stream_at self.now.streams ep ≡ None) }
    {
        match self.streams.at(ep) {
            Some(_) => Ok(None),
            None => {
                let id = self.draw(self.last);
                write_start(ep, row, id, self.sides.agreed, to_host)?;
                Ok(Some(id))
            }
        }
    }

    /// An endpoint's stream is up, and was started with this id unless it was so before.
    pub fn raise(&mut self, ep: EpAddr, row: EpRow, started: Option<u64>)
        requires kept { IsKept self.old }
        ensures kept { IsKept self.new }
        ensures raised { HasRaised ep row started self.old self.new }
    {
        self.streams.raise(self.alloc, ep, row);
        if let Some(id) = started {
            self.stream_ids.start(ep, id);
            self.last = id;
        }
    }

    /// Appends the packets of an isochronous transfer, whose ids come after this one. It gives the id of the last.
    fn write_packets(
        &self,
        request: &Request,
        last: u64,
        to_host: &mut Bytes,
    ) -> Result<u64, Memory>
        requires kept { IsKept self.now }
        requires laid { IsLaid request.now }
        ensures sent { OnOk result (to_host.new ≡ to_host.old ++ bytes_of self.now last (iso_packets request.now)) }
        ensures last { IfOk result (λ id. id ≡ last_of last (ids_after self.now last (length (iso_packets request.now)))) }
        ensures err { OnErr result (Begins to_host.old to_host.new) }
    {
        let body = request.transfer.body.as_slice();
        let mut last = last;
        for place in 0..request.descs.len() {
            let data = part(&request.descs, body, place);
            let id = self.draw(last);
            write_iso_out(
                request.transfer.ep.byte(),
                data,
                id,
                self.sides.agreed,
                to_host,
            )?;
            last = id;
        }
        Ok(last)
    }
}
