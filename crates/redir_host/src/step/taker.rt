//! Takes the packets of a guest's stream for the host.

ghost use Rattle.redir_host.specs.step.Makes.{IsTaken};
ghost use Rattle.redir_host.specs.state.Sound.{IsSound};

use crate::state::host::Host;
use crate::write::note::{HostNote, HostNotes};
use model_device::Gadget;
use packet_stream::PacketTaker;
use redir_data::{FromGuest, RedirPacket};
use redir_wire::Header;
use std::alloc::Global;
use usb_base::{Bytes, Memory, Reason};

/// A host that takes its guest's packets, with what it sends and tells.
#[derive(Drop)]
pub struct GuestTaker<'a, G> {
    pub alloc: Global,
    pub host: &'a mut Host<G>,
    pub out: &'a mut Bytes,
    pub notes: &'a mut HostNotes,
}

impl<'a, G: Gadget> PacketTaker<FromGuest> for GuestTaker<'a, G> {
    ghost use Rattle.std.specs.Prelude.{false};
    ghost use Rattle.redir_host.specs.inner.Takers.{TakerTakes};

    ghost CanTake = { λ taker place packet. IsSound taker.host.now × IsTaken taker.host.now.guest packet.0 packet.1 };

    ghost Takes = { TakerTakes G.meaning };

    ghost over_in = { λ taker. false };

    fn take(&mut self, _place: u64, packet: (Header, RedirPacket)) -> Result<(), Memory> {
        let (header, packet) = packet;
        self.host
            .take(self.alloc, header, packet, self.out, self.notes)
    }

    fn refuse(&mut self, place: u64, reason: Reason) -> Result<(), Memory> {
        self.notes.push(HostNote::Refused { place, reason })?;
        Ok(())
    }

    fn is_over(&self) -> bool {
        false
    }
}
