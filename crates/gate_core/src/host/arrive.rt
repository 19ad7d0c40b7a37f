//! The packets of receiving streams: they are held, and fill the requests that wait for them.

ghost use Rattle.std.specs.Prelude.{◌≡◌, ◌∷◌, OnOk, OnErr};
ghost use Rattle.gate_history.specs.declared.note.Note.TheVariants.{Arrived};
ghost use Rattle.gate_history.specs.state.Ups.{stream_of};
ghost use Rattle.gate_history.specs.step.Meaning.{mark_as, arrives};
ghost use Rattle.gate_history.specs.state.State.{State};
ghost use Rattle.gate_history.specs.state.Sound.{IsSound};
ghost use Rattle.gate_history.specs.step.Wants.{GivesSome};
ghost use Rattle.gate_parts.specs.host.Fill.{up_fill, up_bytes, filled_notes};
ghost use Rattle.gate_core.specs.inner.host.Fill.{HasEnded, HasReceived, received_bytes, received_notes};
ghost use Rattle.gate_core.specs.inner.state.Holds.{IsKept, Holds, Does, StopsShort};
ghost use Rattle.gate_parts.specs.write.Outputs.{with_answers, HasSome};

use crate::state::kept::Kept;
use gate_history::Note;
use gate_parts::{Outputs, StreamIn, finish_fronts, write_fillings};
use redir_data::StreamKind;
use stream_buffers::Up;
use usb_base::{EpAddr, Memory, StreamPacket};

impl Kept {
    /// A packet comes from an endpoint. It means nothing where no stream of that is up.
    pub fn arrive(
        &mut self,
        stream: StreamIn,
        packet: StreamPacket,
        out: &mut Outputs,
    ) -> Result<(), Memory>
        requires kept { IsKept self.old }
        ensures kept { IsKept self.new }
        ensures ok { (st : State) → Holds self.old st → IsSound st
            → OnOk result (Does st (mark_as st (arrives st stream.endpoint stream.kind packet (stream_of st.streams stream.endpoint)) None) self.old self.new out.old out.new) }
        ensures err { OnErr result (StopsShort self.old self.new out.old out.new) }
        ensures wants { (st : State) → Holds self.old st → OnErr result (GivesSome st (mark_as st (arrives st stream.endpoint stream.kind packet (stream_of st.streams stream.endpoint)) None)) }
    {
        let Some(ep) = EpAddr::new(stream.endpoint) else {
            return Ok(());
        };
        let Some(mut up) = self.streams.take(ep) else {
            return Ok(());
        };
        let received = self.receive(ep, &mut up, stream.kind, packet, out);
        self.streams.put(ep, up);
        received
    }

    /// A packet of a stream came. It is held where it is of the stream's kind and there is room; any other is lost.
    fn receive(
        &mut self,
        ep: EpAddr,
        up: &mut Up,
        kind: StreamKind,
        packet: StreamPacket,
        out: &mut Outputs,
    ) -> Result<(), Memory>
        requires kept { IsKept self.old }
        ensures kept { IsKept self.new }
        ensures received { OnOk result (HasReceived ep kind packet up.old up.new self.old self.new) }
        ensures sent { OnOk result (out.new ≡ with_answers out.old (received_bytes ep kind packet up.old self.old.lives.live) (Arrived ep ∷ received_notes ep kind packet up.old self.old.lives.live)) }
        ensures same { OnErr result (self.new ≡ self.old) }
        ensures same_up { OnErr result (up.new ≡ up.old) }
        ensures err { OnErr result (HasSome out.old out.new) }
    {
        out.notes.push(Note::Arrived { ep })?;
        if !kind.is_kind_of(up.row().kind) || !up.receive(packet)? {
            return Ok(());
        }
        match self.fill(ep, up, out) {
            Ok(()) => Ok(()),
            Err(memory) => {
                up.withdraw();
                Err(memory)
            }
        }
    }

    /// The requests that the packets of a stream fill are answered, and gone with those packets.
    pub fn fill(&mut self, ep: EpAddr, up: &mut Up, out: &mut Outputs) -> Result<(), Memory>
        requires kept { IsKept self.old }
        ensures kept { IsKept self.new }
        ensures ended { OnOk result (HasEnded ep up.old up.new self.old self.new) }
        ensures sent { OnOk result (out.new ≡ with_answers out.old (up_bytes ep up.old self.old.lives.live) (filled_notes (up_fill ep up.old self.old.lives.live))) }
        ensures same { OnErr result (self.new ≡ self.old) }
        ensures same_up { OnErr result (up.new ≡ up.old) }
        ensures err { OnErr result (HasSome out.old out.new) }
    {
        let filled = write_fillings(self.alloc, &self.lives, ep, up, out)?;
        finish_fronts(&mut self.lives, ep, filled.requests);
        up.skip(filled.packets);
        self.answered = self.answered.saturating_add(filled.requests as u64);
        Ok(())
    }
}
