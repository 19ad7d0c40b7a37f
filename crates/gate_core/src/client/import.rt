//! What becomes of the client's list and import requests.

ghost use Rattle.std.specs.Prelude.{◌≡◌, ℕ, IfSome, [], None, false, OnOk, OnErr};
ghost use Rattle.usbip_op.specs.declared.packet.OpPacket.TheVariants.{ReqDevlist, ReqImport};
ghost use Rattle.usbip_op.specs.Ranges.{IsWritable};
ghost use Rattle.usbip_urb.specs.declared.client.ClientPacket.TheVariants.{Op};
ghost use Rattle.usb_base.specs.Number.{capped};
ghost use Rattle.gate_history.specs.step.Marks.{Replies, Imports};
ghost use Rattle.gate_history.specs.state.State.{State};
ghost use Rattle.gate_history.specs.client.Replies.{import_reply as import_of};
ghost use Rattle.gate_history.specs.step.Meaning.{mark_as, asked_meaning, importable as importable_in};
ghost use Rattle.gate_core.specs.inner.state.Holds.{IsKept, Holds, Does, StopsShort};

use crate::state::kept::Kept;
use gate_history::Note;
use gate_parts::{Outputs, client_refusal, failed_import, import_reply, is_exported, list_reply};
use redir_wire::Connect;
use usb_base::{Memory, Reason};
use usbip_op::{BUS_ID_SIZE, OpPacket, OpRequest, write_op};

impl Kept {
    /// Answers a list or an import request.
    pub fn answer_op(
        &mut self,
        place: u64,
        request: &OpRequest,
        out: &mut Outputs,
    ) -> Result<(), Memory>
        requires kept { IsKept self.old }
        ensures kept { IsKept self.new }
        ensures ok { (st : State) (at : ℕ) → place ≡ capped at → Holds self.old st → st.sides.client_over ≡ false
            → OnOk result (Does st (mark_as st (asked_meaning st at (Op request.now)) None) self.old self.new out.old out.new) }
        ensures err { OnErr result (StopsShort self.old self.new out.old out.new) }
    {
        match request.busid() {
            None => self.answer_list(place, out),
            Some(busid) => self.answer_import(place, &busid, out),
        }
    }

    /// Answers a list request. A client that has imported the device can't ask.
    fn answer_list(&mut self, place: u64, out: &mut Outputs) -> Result<(), Memory>
        requires kept { IsKept self.old }
        ensures kept { IsKept self.new }
        ensures ok { (st : State) (at : ℕ) (status : ℕ) → place ≡ capped at → Holds self.old st → st.sides.client_over ≡ false
            → OnOk result (Does st (mark_as st (asked_meaning st at (Op (ReqDevlist status))) None) self.old self.new out.old out.new) }
        ensures err { OnErr result (StopsShort self.old self.new out.old out.new) }
    {
        if self.sides.imported {
            return self.refuse_client(client_refusal(place, Reason::AlreadyImported), out);
        }
        let reply = list_reply(self.alloc, &self.facts)?;
        self.reply(&reply, out)
    }

    /// Answers an import request. A client that has imported the device can't ask again.
    fn answer_import(
        &mut self,
        place: u64,
        busid: &[u8; BUS_ID_SIZE],
        out: &mut Outputs,
    ) -> Result<(), Memory>
        requires kept { IsKept self.old }
        ensures kept { IsKept self.new }
        ensures ok { (st : State) (at : ℕ) (status : ℕ) → place ≡ capped at → Holds self.old st → st.sides.client_over ≡ false
            → OnOk result (Does st (mark_as st (asked_meaning st at (Op (ReqImport status busid.now))) None) self.old self.new out.old out.new) }
        ensures err { OnErr result (StopsShort self.old self.new out.old out.new) }
    {
        if self.sides.imported {
            return self.refuse_client(client_refusal(place, Reason::AlreadyImported), out);
        }
        match self.importable(busid) {
            Some(connect) => self.import(&connect, out),
            None => self.reply(&failed_import(), out),
        }
    }

    /// The device that an import of this bus id gets: it is there, and the host has answered all that an earlier client
    /// left, and the last stop of its streams.
    fn importable(&self, busid: &[u8; BUS_ID_SIZE]) -> Option<Connect>
        ensures value { (st : State) → Holds self.now st → result ≡ importable_in st busid.now }
        ensures free { IfSome result (λ connect. self.now.lives.abandoned ≡ []) }
    {
        if is_exported(busid) && self.lives.abandoned() == 0 && self.fence.is_none() {
            self.facts.connect
        } else {
            None
        }
    }

    /// The client imports the device.
    fn import(&mut self, connect: &Connect, out: &mut Outputs) -> Result<(), Memory>
        requires kept { IsKept self.old }
        requires free { self.old.lives.abandoned ≡ [] }
        ensures kept { IsKept self.new }
        ensures ok { (st : State) → Holds self.old st
            → OnOk result (Does st (mark_as st (Imports (import_of st.facts connect.now)) None) self.old self.new out.old out.new) }
        ensures err { OnErr result (StopsShort self.old self.new out.old out.new) }
    {
        out.notes.push(Note::Imported)?;
        write_op(&import_reply(&self.facts, connect), &mut out.to_client)?;
        self.sides.imported = true;
        self.sides.lost = false;
        Ok(())
    }

    /// Appends a reply that changes nothing.
    fn reply(&self, reply: &OpPacket, out: &mut Outputs) -> Result<(), Memory>
        requires kept { IsKept self.now }
        requires writable { IsWritable reply.now }
        ensures ok { (st : State) → Holds self.now st
            → OnOk result (Does st (mark_as st (Replies reply.now) None) self.now self.now out.old out.new) }
        ensures err { OnErr result (StopsShort self.now self.now out.old out.new) }
    {
        write_op(reply, &mut out.to_client)?;
        Ok(())
    }
}
