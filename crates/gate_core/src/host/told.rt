//! What becomes of the host's packets.

ghost use Rattle.std.specs.Prelude.{◌≡◌, ◌++◌, ◌<◌, ℕ, Some, None, false, if◌then◌else◌, length, option_map, slice_get, IfSome, OnOk, OnErr};
ghost use Rattle.std.specs.List.{find, position};
ghost use Rattle.usb_base.specs.declared.side.Side.TheVariants.{Host};
ghost use Rattle.redir_wire.specs.Capability.{announced, caps_of, agreed};
ghost use Rattle.redir_wire.specs.Header.{head_size};
ghost use Rattle.redir_data.specs.declared.packet.RedirPacket.TheVariants.{Plain, Carrying};
ghost use Rattle.unlink_race.specs.declared.live.Live.{Live};
ghost use Rattle.unlink_race.specs.Requests.{in_flight};
ghost use Rattle.unlink_race.specs.Searches.{has_id};
ghost use Rattle.usb_base.specs.Number.{capped};
ghost use Rattle.gate_history.specs.step.Marks.{StreamTold};
ghost use Rattle.gate_history.specs.state.Facts.{tell};
ghost use Rattle.usb_base.specs.Status.{status_of};
ghost use Rattle.gate_history.specs.state.Flight.{wide_ids};
ghost use Rattle.gate_history.specs.client.Ends.{has_id as submit_has_id};
ghost use Rattle.gate_history.specs.state.State.{State, submits};
ghost use Rattle.gate_history.specs.host.Responses.{response_of, mismatch};
ghost use Rattle.gate_history.specs.step.Meaning.{mark_as, fact_of, by_response, told_meaning};
ghost use Rattle.gate_history.specs.state.Sound.{IsSound};
ghost use Rattle.gate_history.specs.step.Wants.{GivesSome};
ghost use Rattle.gate_parts.specs.host.Responses.{response_view, expected_by, IsAnswer, completes};
ghost use Rattle.gate_core.specs.inner.host.Counted.{counted};
ghost use Rattle.gate_core.specs.inner.state.Holds.{IsKept, Holds, Does, StopsShort};
ghost use Rattle.gate_history.specs.step.Fits.{ResponseFits, ToldFits};

use crate::state::kept::Kept;
use gate_parts::{
    Outputs, Response, data_of, head_size, lifted, mismatch, status_of, stream_in, stream_packet,
    write_completed,
};
use redir_data::RedirData;
use redir_wire::{Caps, Header, Hello, RedirControl};
use unlink_race::Ending;
use usb_base::{Memory, Refusal, UsbStatus};

impl Kept {
    /// Takes a packet of the host that moves data, which begins at `place` of its stream. Those of the streams of IN
    /// endpoints go by no id.
    pub fn told_data(
        &mut self,
        place: u64,
        header: &Header,
        packet: RedirData,
        out: &mut Outputs,
    ) -> Result<(), Memory>
        requires kept { IsKept self.old }
        requires fits { ResponseFits header.now.kind (response_of (Carrying packet)) }
        ensures kept { IsKept self.new }
        ensures ok { (st : State) (at : ℕ) → place ≡ capped at → Holds self.old st → IsSound st
            → OnOk result (Does st (mark_as st (told_meaning st at header.now (Carrying packet)) None) self.old self.new out.old out.new) }
        ensures err { OnErr result (StopsShort self.old self.new out.old out.new) }
        ensures wants { (st : State) (at : ℕ) → place ≡ capped at → Holds self.old st → IsSound st → OnErr result (GivesSome st (mark_as st (told_meaning st at header.now (Carrying packet)) None)) }
    {
        let Some(stream) = stream_in(&packet) else {
            return self.respond(place, header, data_of(packet), out);
        };
        self.arrive(stream, stream_packet(packet), out)
    }

    /// Takes a packet of the host that moves no data, which begins at `place` of its stream.
    pub fn told_control(
        &mut self,
        place: u64,
        header: &Header,
        packet: &RedirControl,
        out: &mut Outputs,
    ) -> Result<(), Memory>
        requires kept { IsKept self.old }
        requires fits { ToldFits self.old.sides.agreed header.now (Plain packet.now) }
        ensures kept { IsKept self.new }
        ensures ok { (st : State) (at : ℕ) → place ≡ capped at → Holds self.old st → IsSound st → st.sides.host_over ≡ false
            → OnOk result (Does st (mark_as st (told_meaning st at header.now (Plain packet.now)) (fact_of (Plain packet.now))) self.old self.new out.old out.new) }
        ensures err { OnErr result (StopsShort self.old self.new out.old out.new) }
        ensures wants { (st : State) (at : ℕ) → place ≡ capped at → Holds self.old st → IsSound st → OnErr result (GivesSome st (mark_as st (told_meaning st at header.now (Plain packet.now)) (fact_of (Plain packet.now)))) }
    {
        match packet {
            RedirControl::Hello(hello) => {
                self.agree(hello.get());
                Ok(())
            }
            RedirControl::Disconnect => self.disconnect(header.id, out),
            RedirControl::IsoStatus { status, endpoint }
            | RedirControl::InterruptStatus { status, endpoint } => {
                self.told_stream(header.id, *endpoint, *status, out)
            }
            _ => self.told_fact(place, header, packet, out),
        }
    }

    /// The host's hello: what both sides have is agreed. Ids had 32 bits until then.
    fn agree(&mut self, hello: &Hello)
        requires kept { IsKept self.old }
        requires narrow { wide_ids self.old.sides.agreed ≡ false }
        ensures kept { IsKept self.new }
        ensures agreed { self.new ≡ record self.old { sides = record self.old.sides { agreed = agreed (caps_of hello.now) announced } } }
    {
        self.sides.agreed = hello.caps().agreed(Caps::ANNOUNCED);
    }

    /// The host tells of an endpoint's stream, by the id of what started or stopped it.
    fn told_stream(
        &mut self,
        id: u64,
        endpoint: u8,
        status: u8,
        out: &mut Outputs,
    ) -> Result<(), Memory>
        requires kept { IsKept self.old }
        ensures kept { IsKept self.new }
        ensures ok { (st : State) → Holds self.old st → IsSound st
            → OnOk result (Does st (mark_as st (StreamTold id endpoint (status_of status)) None) self.old self.new out.old out.new) }
        ensures err { OnErr result (StopsShort self.old self.new out.old out.new) }
        ensures wants { (st : State) → Holds self.old st → IsSound st → OnErr result (GivesSome st (mark_as st (StreamTold id endpoint (status_of status)) None)) }
    {
        self.end_stream(endpoint, UsbStatus::from_byte(status), &mut out.to_client)?;
        self.fence = lifted(id, self.fence);
        Ok(())
    }

    /// Takes a packet that may answer a request, and may tell a fact of the device.
    fn told_fact(
        &mut self,
        place: u64,
        header: &Header,
        packet: &RedirControl,
        out: &mut Outputs,
    ) -> Result<(), Memory>
        requires kept { IsKept self.old }
        requires fits { ResponseFits header.now.kind (response_of (Plain packet.now)) }
        ensures kept { IsKept self.new }
        ensures ok { (st : State) (at : ℕ) → place ≡ capped at → Holds self.old st → IsSound st → st.sides.host_over ≡ false
            → OnOk result (Does st (mark_as st (by_response st at header.now (response_of (Plain packet.now))) (fact_of (Plain packet.now))) self.old self.new out.old out.new) }
        ensures err { OnErr result (StopsShort self.old self.new out.old out.new) }
        ensures wants { (st : State) (at : ℕ) → place ≡ capped at → Holds self.old st → IsSound st → OnErr result (GivesSome st (mark_as st (by_response st at header.now (response_of (Plain packet.now))) (fact_of (Plain packet.now)))) }
    {
        self.respond(place, header, status_of(packet), out)?;
        self.learn(packet);
        Ok(())
    }

    /// Takes in the fact that a packet tells. A host that was refused for it has no device any more.
    fn learn(&mut self, packet: &RedirControl)
        requires kept { IsKept self.old }
        ensures kept { IsKept self.new }
        ensures learned { self.new ≡ record self.old { facts = if self.old.sides.host_over then self.old.facts else tell self.old.facts (fact_of (Plain packet.now)) } }
    {
        if !self.sides.host_over {
            self.facts.tell(packet);
        }
    }

    /// Takes what a packet is as an answer, if it is one.
    fn respond(
        &mut self,
        place: u64,
        header: &Header,
        response: Option<Response>,
        out: &mut Outputs,
    ) -> Result<(), Memory>
        requires kept { IsKept self.old }
        requires fits { ResponseFits header.now.kind (option_map response_view response) }
        ensures kept { IsKept self.new }
        ensures ok { (st : State) (at : ℕ) → place ≡ capped at → Holds self.old st → IsSound st
            → OnOk result (Does st (mark_as st (by_response st at header.now (option_map response_view response)) None) self.old self.new out.old out.new) }
        ensures err { OnErr result (StopsShort self.old self.new out.old out.new) }
        ensures wants { (st : State) (at : ℕ) → place ≡ capped at → Holds self.old st → IsSound st → OnErr result (GivesSome st (mark_as st (by_response st at header.now (option_map response_view response)) None)) }
    {
        match response {
            Some(response) => self.answer(place, header, response, out),
            None => Ok(()),
        }
    }

    /// The host answers the request that has the packet's id. It is refused where the answer isn't that of the request;
    /// an answer to nobody means nothing.
    fn answer(
        &mut self,
        place: u64,
        header: &Header,
        response: Response,
        out: &mut Outputs,
    ) -> Result<(), Memory>
        requires kept { IsKept self.old }
        requires fits { ResponseFits header.now.kind (Some (response_view response)) }
        ensures kept { IsKept self.new }
        ensures ok { (st : State) (at : ℕ) → place ≡ capped at → Holds self.old st → IsSound st
            → OnOk result (Does st (mark_as st (by_response st at header.now (Some (response_view response))) None) self.old self.new out.old out.new) }
        ensures err { OnErr result (StopsShort self.old self.new out.old out.new) }
        ensures wants { (st : State) (at : ℕ) → place ≡ capped at → Holds self.old st → IsSound st → OnErr result (GivesSome st (mark_as st (by_response st at header.now (Some (response_view response))) None)) }
    {
        let Some(at) = self.lives.place_of_id(header.id) else {
            return Ok(());
        };
        if let Some(refusal) = self.mismatch_of(at, place, header, &response) {
            return self.refuse_host(refusal, out);
        }
        self.complete(at, response, out)
    }

    /// What is wrong of an answer of the request in flight at a place, whether its client is there or gone.
    fn mismatch_of(
        &self,
        at: usize,
        place: u64,
        header: &Header,
        response: &Response,
    ) -> Option<Refusal>
        requires { at < length (in_flight self.now.lives) }
        ensures value { (l : Live) → slice_get (in_flight self.now.lives) at ≡ Some l → result ≡ mismatch place (head_size (wide_ids self.now.sides.agreed)) (expected_by l) header.now.kind (response_view response.now) }
        ensures side { IfSome result (λ refusal. refusal.side ≡ Host) }
    {
        let live = self.lives.held_at(at);
        mismatch(
            place,
            head_size(self.sides.agreed),
            live,
            header.kind,
            response,
        )
    }

    /// The request in flight at a place ends by its answer. Of one whose client is gone nothing is sent.
    fn complete(&mut self, at: usize, response: Response, out: &mut Outputs) -> Result<(), Memory>
        requires kept { IsKept self.old }
        requires there { at < length (in_flight self.old.lives) }
        requires fits { IfSome (slice_get self.old.lives.live at) (λ l. IsAnswer l (response_view response)) }
        ensures kept { IsKept self.new }
        ensures ok { (st : State) (id : ℕ) → position (has_id id) (in_flight self.old.lives) ≡ Some at → Holds self.old st → IsSound st
            → OnOk result (Does st (mark_as st (completes id (response_view response) (find (submit_has_id id) (submits st ++ st.abandoned))) None) self.old self.new out.old out.new) }
        ensures err { OnErr result (StopsShort self.old self.new out.old out.new) }
        ensures wants { (st : State) (id : ℕ) → position (has_id id) (in_flight self.old.lives) ≡ Some at → Holds self.old st → IsSound st → OnErr result (GivesSome st (mark_as st (completes id (response_view response) (find (submit_has_id id) (submits st ++ st.abandoned))) None)) }
    {
        let Some(live) = self.lives.at(at) else {
            self.lives.finish_at(at);
            return Ok(());
        };
        let ending = write_completed(self.alloc, live, response, out)?;
        self.lives.finish_at(at);
        self.count(ending);
        Ok(())
    }

    /// Counts the answer of a request that has ended: its unlink's where this has won, and else its own.
    fn count(&mut self, ending: Ending)
        requires kept { IsKept self.old }
        ensures kept { IsKept self.new }
        ensures counted { self.new ≡ counted ending self.old }
    {
        match ending {
            Ending::Unlinked { .. } => self.unlinked = self.unlinked.saturating_add(1),
            Ending::Completed | Ending::CompletedThenLate { .. } => {
                self.answered = self.answered.saturating_add(1);
            }
        }
    }
}
