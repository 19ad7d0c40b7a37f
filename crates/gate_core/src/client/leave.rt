//! How submits end with their client.

ghost use Rattle.std.specs.Prelude.{◌≡◌, ◌<◌, ◌++◌, not, [], None, true, false, OnOk, OnErr, length, filter};
ghost use Rattle.std.specs.List.{flat_map};
ghost use Rattle.usb_base.specs.declared.side.Side.TheVariants.{Client};
ghost use Rattle.unlink_race.specs.Searches.{goes_by_id};
ghost use Rattle.gate_history.specs.declared.note.Note.TheVariants.{ClientGone};
ghost use Rattle.gate_history.specs.step.Marks.{Ends, Refuses};
ghost use Rattle.gate_history.specs.state.Ups.{no_streams};
ghost use Rattle.gate_history.specs.state.State.{State};
ghost use Rattle.gate_history.specs.step.Meaning.{mark_as};
ghost use Rattle.gate_history.specs.write.Notes.{when};
ghost use Rattle.gate_history.specs.step.Wants.{GivesSome};
ghost use Rattle.gate_core.specs.inner.state.Holds.{IsKept, Holds, Does, StopsShort, HasLeft};
ghost use Rattle.usb_base.specs.Writes.{Begins};
ghost use Rattle.gate_parts.specs.state.Rows.{cancel_bytes, is_cancelled_row};

use crate::state::kept::Kept;
use gate_history::{Note, Notes};
use gate_parts::{Outputs, SentIds, write_cancel_of};
use usb_base::{Bytes, Memory, Refusal};

impl Kept {
    /// Appends the cancels of the transfers on the wire that weren't asked back, whose client is gone.
    fn write_cancels(&self, to_host: &mut Bytes) -> Result<(), Memory>
        requires { IsKept self.now }
        ensures ok { OnOk result (to_host.new ≡ to_host.old ++ flat_map (cancel_bytes self.now.sides.agreed) self.now.lives.live) }
        ensures err { OnErr result (Begins to_host.old to_host.new) }
        ensures wants { OnErr result (0 < length (filter is_cancelled_row self.now.lives.live)) }
    {
        for live in self.lives.iter() {
            write_cancel_of(live, self.sides.agreed, to_host)?;
        }
        Ok(())
    }

    /// The client has left.
    pub fn client_left(&mut self, out: &mut Outputs) -> Result<(), Memory>
        requires kept { IsKept self.old }
        ensures kept { IsKept self.new }
        ensures ok { (st : State) → Holds self.old st → OnOk result (Does st (mark_as st (Ends Client) None) self.old self.new out.old out.new) }
        ensures err { OnErr result (StopsShort self.old self.new out.old out.new) }
        ensures wants { (st : State) → Holds self.old st → OnErr result (GivesSome st (mark_as st (Ends Client) None)) }
    {
        self.write_cancels(&mut out.to_host)?;
        let sent_ids = self.write_stops(None, &mut out.to_host)?;
        self.tell_gone(&mut out.notes)?;
        self.leave(sent_ids);
        self.sides.client_over = false;
        Ok(())
    }

    /// The client is refused.
    pub fn refuse_client(&mut self, refusal: Refusal, out: &mut Outputs) -> Result<(), Memory>
        requires kept { IsKept self.old }
        requires side { refusal.side ≡ Client }
        ensures kept { IsKept self.new }
        ensures ok { (st : State) → Holds self.old st → st.sides.client_over ≡ false → OnOk result (Does st (mark_as st (Refuses refusal) None) self.old self.new out.old out.new) }
        ensures err { OnErr result (StopsShort self.old self.new out.old out.new) }
    {
        self.write_cancels(&mut out.to_host)?;
        let sent_ids = self.write_stops(None, &mut out.to_host)?;
        out.notes.push(Note::ClientGone)?;
        out.notes.push(Note::Refused(refusal))?;
        self.leave(sent_ids);
        self.sides.client_over = true;
        Ok(())
    }

    /// Tells that the client is gone; one that was refused was gone before its end.
    fn tell_gone(&self, notes: &mut Notes) -> Result<(), Memory>
        ensures ok { OnOk result (notes.new ≡ notes.old ++ when (not self.now.sides.client_over) ClientGone) }
        ensures err { OnErr result (notes.new ≡ notes.old) }
        ensures wants { OnErr result (not self.now.sides.client_over ≡ true) }
    {
        if !self.sides.client_over {
            notes.push(Note::ClientGone)?;
        }
        Ok(())
    }

    /// The client is gone: the host still has its transfers, which are abandoned, and its streams were stopped.
    fn leave(&mut self, sent_ids: SentIds)
        requires kept { IsKept self.old }
        ensures kept { IsKept self.new }
        ensures left { HasLeft sent_ids self.old self.new }
    {
        self.dropped = self.dropped.saturating_add(self.lives.len() as u64);
        self.sides.imported = false;
        self.abandon();
        self.forget_streams(sent_ids);
    }

    /// What the client has at the host is abandoned.
    pub fn abandon(&mut self)
        ensures kept { IsKept self.old → self.old.sides.imported ≡ false → IsKept self.new }
        ensures abandoned { self.new ≡ record self.old { lives = record { live = []; abandoned = self.old.lives.abandoned ++ filter goes_by_id self.old.lives.live } } }
    {
        // There are live requests or abandoned ones, but never both.
        self.lives.one_is_empty();
        if self.lives.abandoned() == 0 {
            self.lives.abandon();
        }
    }

    /// The streams were stopped.
    fn forget_streams(&mut self, sent_ids: SentIds)
        requires kept { IsKept self.old }
        ensures kept { IsKept self.new }
        ensures forgot { self.new ≡ record self.old { streams = no_streams; stream_ids = sent_ids.stream_ids; fence = sent_ids.fence; last = sent_ids.last } }
    {
        self.streams.clear();
        self.stream_ids = sent_ids.stream_ids;
        self.fence = sent_ids.fence;
        self.last = sent_ids.last;
    }
}
