//! How submits end with the loss of the device.

ghost use Rattle.std.specs.Prelude.{◌≡◌, ◌<◌, ◌++◌, ◌&&◌, not, None, true, OnOk, OnErr, IfOk, length, filter};
ghost use Rattle.std.specs.List.{flat_map};
ghost use Rattle.usb_base.specs.declared.side.Side.TheVariants.{Host};
ghost use Rattle.redir_wire.specs.Header.{IdFits};
ghost use Rattle.gate_history.specs.state.Flight.{wide_ids};
ghost use Rattle.gate_history.specs.declared.note.Note.TheVariants.{DeviceGone};
ghost use Rattle.gate_history.specs.step.Marks.{Disconnects, Ends, Refuses};
ghost use Rattle.gate_history.specs.state.State.{State};
ghost use Rattle.gate_history.specs.step.Meaning.{mark_as};
ghost use Rattle.gate_history.specs.write.Notes.{when};
ghost use Rattle.gate_history.specs.step.Wants.{GivesSome};
ghost use Rattle.gate_core.specs.inner.state.Holds.{IsKept, Holds, Does, StopsShort, HasLost};
ghost use Rattle.usb_base.specs.Writes.{Begins};
ghost use Rattle.gate_parts.specs.state.Rows.{lost_bytes, is_asked_back};

use crate::state::kept::Kept;
use gate_history::{Facts, Note, Notes};
use gate_parts::{Outputs, acknowledge, write_lost};
use usb_base::{Bytes, Memory, Refusal};

impl Kept {
    /// Appends the answers of all live requests, whose device is lost. It gives the number of those that were asked
    /// back, whose unlinks are answered.
    fn write_losses(&self, to_client: &mut Bytes) -> Result<u64, Memory>
        requires { IsKept self.now }
        ensures ok { OnOk result (to_client.new ≡ to_client.old ++ flat_map lost_bytes self.now.lives.live) }
        ensures count { IfOk result (λ unlinked. unlinked ≡ length (filter is_asked_back self.now.lives.live)) }
        ensures err { OnErr result (Begins to_client.old to_client.new) }
        ensures wants { OnErr result (0 < length self.now.lives.live) }
    {
        let mut unlinked = 0;
        for live in self.lives.iter() {
            write_lost(self.alloc, live, to_client)?;
            unlinked += u64::from(live.unlinker.is_some());
        }
        Ok(unlinked)
    }

    /// The device is lost: what the host has told goes with it, and all requests have ended, of which so many were
    /// asked back.
    fn lose(&mut self, unlinked: u64)
        requires kept { IsKept self.old }
        ensures kept { IsKept self.new }
        ensures lost { HasLost unlinked self.old self.new }
    {
        let live = self.lives.len() as u64;
        self.answered = self.answered.saturating_add(live.saturating_sub(unlinked));
        self.unlinked = self.unlinked.saturating_add(unlinked);
        self.abandon();
        self.lives.forget_abandoned();
        self.facts = Facts::none();
        self.streams.clear();
        self.fence = None;
        self.sides.lost = true;
    }

    /// The host has ended: its device is lost with it.
    pub fn host_left(&mut self, out: &mut Outputs) -> Result<(), Memory>
        requires kept { IsKept self.old }
        ensures kept { IsKept self.new }
        ensures ok { (st : State) → Holds self.old st → OnOk result (Does st (mark_as st (Ends Host) None) self.old self.new out.old out.new) }
        ensures err { OnErr result (StopsShort self.old self.new out.old out.new) }
        ensures wants { (st : State) → Holds self.old st → OnErr result (GivesSome st (mark_as st (Ends Host) None)) }
    {
        let unlinked = self.write_losses(&mut out.to_client)?;
        self.tell_loss(&mut out.notes)?;
        self.lose(unlinked);
        self.sides.host_over = true;
        Ok(())
    }

    /// The host is refused: its device is lost with it.
    pub fn refuse_host(&mut self, refusal: Refusal, out: &mut Outputs) -> Result<(), Memory>
        requires kept { IsKept self.old }
        requires side { refusal.side ≡ Host }
        ensures kept { IsKept self.new }
        ensures ok { (st : State) → Holds self.old st → OnOk result (Does st (mark_as st (Refuses refusal) None) self.old self.new out.old out.new) }
        ensures err { OnErr result (StopsShort self.old self.new out.old out.new) }
    {
        let unlinked = self.write_losses(&mut out.to_client)?;
        self.tell_loss(&mut out.notes)?;
        out.notes.push(Note::Refused(refusal))?;
        self.lose(unlinked);
        self.sides.host_over = true;
        Ok(())
    }

    /// The device is gone: the host's packet with this id tells so, and is acknowledged where that is agreed.
    pub fn disconnect(&mut self, id: u64, out: &mut Outputs) -> Result<(), Memory>
        requires kept { IsKept self.old }
        requires id_fits { IdFits (wide_ids self.old.sides.agreed) id }
        ensures kept { IsKept self.new }
        ensures ok { (st : State) → Holds self.old st → OnOk result (Does st (mark_as st (Disconnects id) None) self.old self.new out.old out.new) }
        ensures err { OnErr result (StopsShort self.old self.new out.old out.new) }
        ensures wants { (st : State) → Holds self.old st → OnErr result (GivesSome st (mark_as st (Disconnects id) None)) }
    {
        let unlinked = self.write_losses(&mut out.to_client)?;
        self.tell_loss(&mut out.notes)?;
        acknowledge(id, self.sides.agreed, &mut out.to_host)?;
        self.lose(unlinked);
        Ok(())
    }

    /// Tells that an import stands no more, if one did.
    fn tell_loss(&self, notes: &mut Notes) -> Result<(), Memory>
        ensures ok { OnOk result (notes.new ≡ notes.old ++ when (self.now.sides.imported && not self.now.sides.lost) DeviceGone) }
        ensures err { OnErr result (notes.new ≡ notes.old) }
        ensures wants { OnErr result ((self.now.sides.imported && not self.now.sides.lost) ≡ true) }
    {
        if self.sides.imported && !self.sides.lost {
            notes.push(Note::DeviceGone)?;
        }
        Ok(())
    }
}
