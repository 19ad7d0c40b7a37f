//! What becomes of a client's unlinks.

ghost use Rattle.std.specs.Prelude.{◌≡◌, ℕ, None, Some, true, false, slice_get, OnOk, OnErr};
ghost use Rattle.std.specs.List.{position};
ghost use Rattle.usbip_urb.specs.declared.packet.UrbPacket.TheVariants.{Unlink as UnlinkPacket};
ghost use Rattle.unlink_race.specs.declared.live.Live.{Live};
ghost use Rattle.unlink_race.specs.Searches.{has_number, goes_by_id};
ghost use Rattle.usbip_urb.specs.declared.client.ClientPacket.TheVariants.{Urb};
ghost use Rattle.usb_base.specs.Number.{capped};
ghost use Rattle.gate_history.specs.step.Marks.{Unlinks};
ghost use Rattle.gate_history.specs.state.State.{State};
ghost use Rattle.gate_history.specs.step.Meaning.{mark_as, asked_meaning};
ghost use Rattle.gate_history.specs.state.Sound.{IsSound};
ghost use Rattle.gate_core.specs.inner.client.Unlink.{HasMarked, HasTakenBack};
ghost use Rattle.gate_core.specs.inner.state.Holds.{IsKept, Holds, Does, StopsShort};

use crate::state::kept::Kept;
use gate_history::Note;
use gate_parts::{Outputs, client_refusal, write_cancel, write_ret_unlink};
use unlink_race::AskedBack;
use usb_base::errno::ECONNRESET;
use usb_base::{Memory, Reason};
use usbip_urb::Unlink;

impl Kept {
    /// An unlink: a client that hasn't imported the device can't send one.
    pub fn unlink(&mut self, place: u64, unlink: &Unlink, out: &mut Outputs) -> Result<(), Memory>
        requires kept { IsKept self.old }
        ensures kept { IsKept self.new }
        ensures ok { (st : State) (at : ℕ) → place ≡ capped at → Holds self.old st → IsSound st → st.sides.client_over ≡ false
            → OnOk result (Does st (mark_as st (asked_meaning st at (Urb (UnlinkPacket unlink.now))) None) self.old self.new out.old out.new) }
        ensures err { OnErr result (StopsShort self.old self.new out.old out.new) }
    {
        if !self.sides.imported {
            return self.refuse_client(client_refusal(place, Reason::NotImported), out);
        }
        self.ask_back(unlink.head.seqnum, unlink.target, out)
    }

    /// The unlink `by` asks for the submit `target` to be taken back. The first that does so is kept.
    fn ask_back(&mut self, by: u32, target: u32, out: &mut Outputs) -> Result<(), Memory>
        requires kept { IsKept self.old }
        ensures kept { IsKept self.new }
        ensures ok { (st : State) → Holds self.old st → IsSound st
            → OnOk result (Does st (mark_as st (Unlinks by target) None) self.old self.new out.old out.new) }
        ensures err { OnErr result (StopsShort self.old self.new out.old out.new) }
    {
        out.notes.push(Note::UnlinkAsked { by, target })?;
        let Some(at) = self.lives.place_of_number(target) else {
            return write_ret_unlink(by, 0, &mut out.to_client);
        };
        match self.lives.held_at(at).asked_back() {
            AskedBack::Already(_) => write_ret_unlink(by, 0, &mut out.to_client),
            AskedBack::Cancel(id) => {
                write_cancel(id, self.sides.agreed, &mut out.to_host)?;
                self.mark(at, by);
                Ok(())
            }
            AskedBack::Waits => {
                self.mark(at, by);
                Ok(())
            }
            AskedBack::Taken => {
                write_ret_unlink(by, ECONNRESET, &mut out.to_client)?;
                self.take_back(at);
                Ok(())
            }
        }
    }

    /// Keeps the unlink `by` of a submit that the host has, which stands at this place.
    fn mark(&mut self, at: usize, by: u32)
        requires kept { IsKept self.old }
        requires there { (live : Live) × (slice_get self.old.lives.live at ≡ Some live) × (goes_by_id live ≡ true) }
        ensures kept { IsKept self.new }
        ensures marked { (target : ℕ) → position (has_number target) self.old.lives.live ≡ Some at → HasMarked target by self.old self.new }
    {
        self.lives.mark_at(at, by);
    }

    /// The submit at a place is no more, and its unlink answered so.
    fn take_back(&mut self, at: usize)
        requires kept { IsKept self.old }
        requires there { (target : ℕ) × (position (has_number target) self.old.lives.live ≡ Some at) }
        ensures kept { IsKept self.new }
        ensures taken { (target : ℕ) → position (has_number target) self.old.lives.live ≡ Some at → HasTakenBack target self.old self.new }
    {
        self.lives.finish_at(at);
        self.unlinked = self.unlinked.saturating_add(1);
    }
}
