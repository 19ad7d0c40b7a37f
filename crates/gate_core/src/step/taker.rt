//! Takes the packets of either side's stream as items.

ghost use Rattle.gate_history.specs.declared.item.Item.TheVariants.{Asked, ClientWrong, HostWrong};
ghost use Rattle.gate_history.specs.step.Fits.{ItemFits};
ghost use Rattle.gate_core.specs.inner.step.Steps.{told_item};

use crate::step::translator::Translator;
use gate_history::Item;
use gate_parts::Outputs;
use packet_stream::PacketTaker;
use redir_data::{FromHost, RedirPacket};
use redir_wire::Header;
use usb_base::{Memory, Reason};
use usbip_urb::{ClientFormat, ClientPacket};

/// The translator, with what an event gives.
#[derive(Drop)]
pub struct ItemTaker<'a> {
    pub translator: &'a mut Translator,
    pub out: &'a mut Outputs,
}

impl<'a> PacketTaker<ClientFormat> for ItemTaker<'a> {
    ghost use Rattle.gate_core.specs.inner.step.Takers.{TakerTakes};

    ghost CanTake = { λ taker place packet. ItemFits taker.translator.now.sides.agreed (Asked place packet) };

    ghost Takes = { TakerTakes Asked ClientWrong };

    ghost over_in = { λ taker. taker.translator.now.sides.client_over };

    fn take(&mut self, place: u64, packet: ClientPacket) -> Result<(), Memory> {
        self.translator
            .take(Item::Asked { place, packet }, self.out)
    }

    fn refuse(&mut self, place: u64, reason: Reason) -> Result<(), Memory> {
        self.translator
            .take(Item::ClientWrong { place, reason }, self.out)
    }

    fn is_over(&self) -> bool {
        self.translator.kept().sides.client_over
    }
}

impl<'a> PacketTaker<FromHost> for ItemTaker<'a> {
    ghost use Rattle.gate_core.specs.inner.step.Takers.{TakerTakes};

    ghost CanTake = { λ taker place packet. ItemFits taker.translator.now.sides.agreed (told_item place packet) };

    ghost Takes = { TakerTakes told_item HostWrong };

    ghost over_in = { λ taker. taker.translator.now.sides.host_over };

    fn take(&mut self, place: u64, packet: (Header, RedirPacket)) -> Result<(), Memory> {
        let (header, packet) = packet;
        let told = Item::Told {
            place,
            header,
            packet,
        };
        self.translator.take(told, self.out)
    }

    fn refuse(&mut self, place: u64, reason: Reason) -> Result<(), Memory> {
        self.translator
            .take(Item::HostWrong { place, reason }, self.out)
    }

    fn is_over(&self) -> bool {
        self.translator.kept().sides.host_over
    }
}
