//! The requests that wait for packets of a stream.

ghost use Rattle.std.specs.Prelude.{◌≡◌, ◌∷◌, None, OnOk, OnErr};
ghost use Rattle.gate_history.specs.state.Ups.{stream_at};
ghost use Rattle.gate_history.specs.declared.note.Note.TheVariants.{Submitted};
ghost use Rattle.gate_history.specs.declared.verdict.Verdict.TheVariants.{Stream};
ghost use Rattle.gate_history.specs.step.Meaning.{mark_as, accepts};
ghost use Rattle.gate_history.specs.state.State.{State};
ghost use Rattle.gate_history.specs.state.Sound.{IsSound};
ghost use Rattle.gate_parts.specs.host.Fill.{up_fill, up_bytes, filled_notes};
ghost use Rattle.gate_core.specs.inner.host.Fill.{HasJoined, joined_rows};
ghost use Rattle.gate_core.specs.inner.state.Holds.{IsKept, Holds, Does, StopsShort, IsFree, CanWait};
ghost use Rattle.gate_parts.specs.write.Outputs.{with_answers, HasSome};

use crate::state::kept::Kept;
use gate_history::{Note, Request};
use gate_parts::{Outputs, row_for};
use stream_buffers::Up;
use unlink_race::LiveKind;
use usb_base::{EpRow, Memory};

impl Kept {
    /// A request waits for packets of its endpoint's stream. It is started where it isn't up; one that is up keeps its
    /// row, and may hold packets that fill the request.
    pub fn wait(&mut self, row: EpRow, request: Request, out: &mut Outputs) -> Result<(), Memory>
        requires kept { IsKept self.old }
        requires free { IsFree self.old request.seqnum }
        requires waits { CanWait request }
        ensures kept { IsKept self.new }
        ensures ok { (st : State) → Holds self.old st → IsSound st
            → OnOk result (Does st (mark_as st (accepts st request (Stream row)) None) self.old self.new out.old out.new) }
        ensures err { OnErr result (StopsShort self.old self.new out.old out.new) }
    {
        let ep = request.ep();
        let Some(mut up) = self.streams.take(ep) else {
            return self.start(row, request, out);
        };
        let joined = self.join(&mut up, request, out);
        self.streams.put(ep, up);
        joined
    }

    /// A request waits for a stream that is up.
    fn join(&mut self, up: &mut Up, request: Request, out: &mut Outputs) -> Result<(), Memory>
        requires kept { IsKept self.old }
        requires free { IsFree self.old request.seqnum }
        requires waits { CanWait request }
        ensures kept { IsKept self.new }
        ensures joined { OnOk result (HasJoined up.old up.new request self.old self.new) }
        ensures sent { OnOk result (out.new ≡ with_answers out.old (up_bytes request.transfer.ep up.old (joined_rows up.old request self.old)) (Submitted request.seqnum 0 ∷ filled_notes (up_fill request.transfer.ep up.old (joined_rows up.old request self.old)))) }
        ensures same { OnErr result (self.new ≡ self.old) }
        ensures same_up { OnErr result (up.new ≡ up.old) }
        ensures err { OnErr result (HasSome out.old out.new) }
    {
        let seqnum = request.seqnum;
        out.notes.push(Note::Submitted { seqnum, id: 0 })?;
        let ep = request.ep();
        let kind = LiveKind::Stream {
            ep,
            interface: up.row().interface,
        };
        let live = row_for(request, kind, 0);
        self.lives.push(live);
        match self.fill(ep, up, out) {
            Ok(()) => Ok(()),
            Err(memory) => {
                self.lives.take_last();
                Err(memory)
            }
        }
    }

    /// A request waits for a stream that it starts.
    fn start(&mut self, row: EpRow, request: Request, out: &mut Outputs) -> Result<(), Memory>
        requires kept { IsKept self.old }
        requires free { IsFree self.old request.seqnum }
        requires waits { CanWait request }
        requires down { stream_at self.old.streams request.transfer.ep ≡ None }
        ensures kept { IsKept self.new }
        ensures ok { (st : State) → Holds self.old st → IsSound st
            → OnOk result (Does st (mark_as st (accepts st request (Stream row)) None) self.old self.new out.old out.new) }
        ensures err { OnErr result (StopsShort self.old self.new out.old out.new) }
    {
        let seqnum = request.seqnum;
        out.notes.push(Note::Submitted { seqnum, id: 0 })?;
        let ep = request.ep();
        let started = self.write_start(ep, row, &mut out.to_host)?;
        let kind = LiveKind::Stream {
            ep,
            interface: row.interface,
        };
        self.raise(ep, row, started);
        let live = row_for(request, kind, 0);
        self.open(live, self.last);
        Ok(())
    }
}
