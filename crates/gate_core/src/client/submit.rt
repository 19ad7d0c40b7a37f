//! What becomes of a client's submits.

ghost use Rattle.std.specs.Prelude.{◌≡◌, ◌≤◌, ◌++◌, length, ℕ, [], None, Some, false, OnOk, OnErr, IfOk};
ghost use Rattle.usbip_urb.specs.declared.client.ClientPacket.TheVariants.{Urb};
ghost use Rattle.gate_history.specs.step.Marks.{Opens};
ghost use Rattle.gate_history.specs.declared.verdict.Verdict.TheVariants.{Now, Wire};
ghost use Rattle.gate_history.specs.declared.verdict.Verdict.TheVariants as verdict;
ghost use Rattle.gate_history.specs.state.Ups.{lower, is_ended};
ghost use Rattle.gate_history.specs.state.Ids.{draw, greatest, last_of};
ghost use Rattle.gate_history.specs.state.Flight.{wide_ids, wide_bulk};
ghost use Rattle.gate_history.specs.write.Packets.{route_packets};
ghost use Rattle.redir_wire.specs.Header.{IdFits};
ghost use Rattle.usbip_urb.specs.declared.packet.UrbPacket.TheVariants.{Submit as SubmitPacket};
ghost use Rattle.usbip_urb.specs.Ranges.{IsSubmit};
ghost use Rattle.usb_base.specs.Number.{capped};
ghost use Rattle.unlink_race.specs.declared.live.LiveKind.TheVariants.{Routed};
ghost use Rattle.gate_history.specs.state.State.{State, next_ids};
ghost use Rattle.gate_history.specs.step.Meaning.{mark_as, submission, drawn_for, verdict_of, asked_meaning};
ghost use Rattle.gate_history.specs.state.Sound.{IsSound};
ghost use Rattle.gate_history.specs.write.Asked.{HasItsPackets};
ghost use Rattle.usb_base.specs.Writes.{Begins};
ghost use Rattle.gate_core.specs.inner.state.SentIds.{flying_in, ids_after, bytes_of};
ghost use Rattle.gate_history.specs.client.Carried.{IsRequest, IsSent, IsCarried};
ghost use Rattle.gate_parts.specs.state.Rows.{kind_of};
ghost use Rattle.gate_core.specs.inner.state.Holds.{IsRow, IsKept, Holds, Does, StopsShort, IsFree, CanAnswer, CanGo, HasOpened};

use crate::state::kept::Kept;
use control_route::Route;
use gate_history::{Note, Pipe, Request, Situation, Verdict};
use gate_parts::{
    Outputs, StreamIds, client_refusal, decide, draw, row_for, wire_packet, write_route,
    write_without_packets,
};
use redir_data::move_data;
use redir_wire::{Caps, Way};
use unlink_race::{Live, LiveKind, StreamEnd};
use usb_base::errno::ESHUTDOWN;
use usb_base::{Bytes, Memory, Reason};
use usbip_urb::Submit;

impl Kept {
    /// A submit: a client that hasn't imported the device can't send one, nor one with a number that is live. Any other
    /// is accepted, and goes on by its verdict.
    pub fn submit(&mut self, place: u64, submit: Submit, out: &mut Outputs) -> Result<(), Memory>
        requires kept { IsKept self.old }
        requires fits { IsSubmit submit }
        ensures kept { IsKept self.new }
        ensures ok { (st : State) (at : ℕ) → place ≡ capped at → Holds self.old st → IsSound st → st.sides.client_over ≡ false
            → OnOk result (Does st (mark_as st (asked_meaning st at (Urb (SubmitPacket submit))) None) self.old self.new out.old out.new) }
        ensures err { OnErr result (StopsShort self.old self.new out.old out.new) }
    {
        if !self.sides.imported {
            return self.refuse_client(client_refusal(place, Reason::NotImported), out);
        }
        if self.lives.has(submit.head.seqnum) {
            let place = place.saturating_add(4);
            return self.refuse_client(client_refusal(place, Reason::DuplicateSeq), out);
        }
        let request = Request::of(submit);
        match self.verdict(&request) {
            Verdict::Now(status) => self.answer_now(&request, status, out),
            Verdict::Wire(pipe) => self.send(pipe, request, out),
            Verdict::Routed(route) => self.send_route(route, request, out),
            Verdict::IsoOut(row) => self.send_iso(row, &request, out),
            Verdict::Stream(row) => self.wait(row, request, out),
        }
    }

    /// What is made of a request here.
    fn verdict(&self, request: &Request) -> Verdict
        requires whole { IsRequest request.now }
        ensures value { (st : State) → Holds self.now st → result ≡ verdict_of st request.now }
        ensures carried { IsCarried (wide_bulk self.now.sides.agreed) result request.now }
        ensures answered { CanGo self.now request.now result }
    {
        let changing = self.lives.change_waits();
        let wide = self.sides.agreed.contains(Caps::WIDE_BULK_LENGTH);
        let here = Situation {
            lost: self.sides.lost,
            live: self.lives.len(),
            changing,
            row: self.facts.table.row(request.transfer.ep),
            wide,
        };
        decide(here, request)
    }

    /// A submit is answered at once.
    fn answer_now(
        &mut self,
        request: &Request,
        status: i32,
        out: &mut Outputs,
    ) -> Result<(), Memory>
        requires kept { IsKept self.old }
        requires packets { HasItsPackets request.now.packets request.now.descs }
        ensures kept { IsKept self.new }
        ensures ok { (st : State) → Holds self.old st → IsSound st
            → OnOk result (Does st (mark_as st (Opens (submission st request.now (Now status) [])) None) self.old self.new out.old out.new) }
        ensures err { OnErr result (StopsShort self.old self.new out.old out.new) }
    {
        let seqnum = request.seqnum;
        out.notes.push(Note::Submitted { seqnum, id: 0 })?;
        write_without_packets(self.alloc, &request.asked(), status, &mut out.to_client)?;
        self.answered = self.answered.saturating_add(1);
        Ok(())
    }

    /// A transfer goes to the host as a packet of its own kind.
    fn send(&mut self, pipe: Pipe, request: Request, out: &mut Outputs) -> Result<(), Memory>
        requires kept { IsKept self.old }
        requires free { IsFree self.old request.seqnum }
        requires sent { IsSent (wide_bulk self.old.sides.agreed) pipe request.transfer }
        requires answered { CanAnswer request (kind_of (Wire pipe) request.transfer.ep) }
        ensures kept { IsKept self.new }
        ensures ok { (st : State) → Holds self.old st → IsSound st
            → OnOk result (Does st (mark_as st (Opens (submission st request (Wire pipe) (next_ids st 1))) None) self.old self.new out.old out.new) }
        ensures err { OnErr result (StopsShort self.old self.new out.old out.new) }
    {
        let id = self.draw(self.last);
        let Request {
            seqnum,
            is_in,
            flags,
            packets,
            descs,
            transfer,
        } = request;
        out.notes.push(Note::Submitted { seqnum, id })?;
        let wanted = transfer.wanted;
        let kind = LiveKind::Wire {
            ep: transfer.ep,
            kind: pipe.kind(),
        };
        let packet = wire_packet(pipe, transfer);
        move_data(packet, id, Way::ToHost, self.sides.agreed, &mut out.to_host)?;
        let live = Live {
            seqnum,
            id,
            kind,
            is_in,
            wanted,
            flags,
            packets,
            descs,
            unlinker: None,
        };
        self.open(live, id);
        Ok(())
    }

    /// A transfer goes to the host by the packets of its route, once the streams that end with it are stopped, and the
    /// requests that wait for their packets answered.
    fn send_route(
        &mut self,
        route: Route,
        request: Request,
        out: &mut Outputs,
    ) -> Result<(), Memory>
        requires kept { IsKept self.old }
        requires free { IsFree self.old request.seqnum }
        requires answered { CanAnswer request (Routed route) }
        requires some { 1 ≤ length (route_packets route) }
        ensures kept { IsKept self.new }
        ensures ok { (st : State) → Holds self.old st → IsSound st
            → OnOk result (Does st (mark_as st (Opens (submission st request (verdict.Routed route) (drawn_for st request (verdict.Routed route)))) None) self.old self.new out.old out.new) }
        ensures err { OnErr result (StopsShort self.old self.new out.old out.new) }
    {
        let end = StreamEnd::Change(route);
        self.write_ends(&end, ESHUTDOWN, &mut out.to_client)?;
        let sent_ids = self.write_stops(Some(route), &mut out.to_host)?;
        let id = self.ask_route(&route, sent_ids.last, &mut out.to_host)?;
        let seqnum = request.seqnum;
        out.notes.push(Note::Submitted { seqnum, id })?;
        let live = row_for(request, LiveKind::Routed(route), id);
        self.open(live, id);
        self.drop_ended(&end);
        self.end_streams(route, sent_ids.stream_ids);
        Ok(())
    }

    /// Appends the packets of a route, and gives the id of the last. A reset has no answer: what the configuration is
    /// after it is asked for.
    fn ask_route(&self, route: &Route, last: u64, to_host: &mut Bytes) -> Result<u64, Memory>
        requires kept { IsKept self.now }
        requires some { 1 ≤ length (route_packets route.now) }
        ensures sent { OnOk result (to_host.new ≡ to_host.old ++ bytes_of self.now last (route_packets route.now)) }
        ensures id { IfOk result (λ id. id ≡ last_of last (ids_after self.now last (length (route_packets route.now)))) }
        ensures fits { IfOk result (λ id. IdFits (wide_ids self.now.sides.agreed) id) }
        ensures err { OnErr result (Begins to_host.old to_host.new) }
    {
        let first = self.draw(last);
        write_route(route, first, self.sides.agreed, to_host)?;
        match route {
            Route::Reset => {
                let second = self.draw(first);
                write_route(&Route::GetConfig, second, self.sides.agreed, to_host)?;
                Ok(second)
            }
            _ => Ok(first),
        }
    }

    /// The streams that end with a route go down, and were stopped.
    fn end_streams(&mut self, route: Route, stream_ids: StreamIds)
        requires kept { IsKept self.old }
        ensures kept { IsKept self.new }
        ensures ended { self.new ≡ record self.old { streams = lower (is_ended (Some route)) self.old.streams; stream_ids = stream_ids } }
    {
        self.streams.lower(Some(route));
        self.stream_ids = stream_ids;
    }

    /// The first id after this one that is in flight nowhere.
    pub fn draw(&self, last: u64) -> u64
        requires { IsKept self.now }
        ensures value { result ≡ draw (greatest (wide_ids self.now.sides.agreed)) (flying_in self.now) last }
        ensures fits { IdFits (wide_ids self.now.sides.agreed) result }
    {
        draw(&self.lives, &self.stream_ids, self.sides.agreed, last)
    }

    /// Takes a request in, the last of those in flight, for which this id was drawn last.
    pub fn open(&mut self, live: Live, last: u64)
        requires kept { IsKept self.old }
        requires free { IsFree self.old live.seqnum }
        requires row { IsRow self.old.sides.agreed live }
        ensures kept { IsKept self.new }
        ensures opened { HasOpened live last self.old self.new }
    {
        self.lives.push(live);
        self.last = last;
    }
}
