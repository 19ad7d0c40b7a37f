//! What the host tells unasked: what the device has for a stream, and that it was taken away.

ghost use Rattle.std.specs.Prelude.{◌≡◌, ◌≤◌, length, not, IfOk, OnOk, OnErr};
ghost use Rattle.model_device.specs.declared.gadget.TheConstants.{MAX_STREAM_PACKET};
ghost use Rattle.redir_host.specs.step.Makes.{Makes};
ghost use Rattle.redir_host.specs.device.Offering.{offer_move, stream_packet, unplug_move, told_offered};
ghost use Rattle.redir_host.specs.state.Sound.{IsSound};
ghost use Rattle.redir_host.specs.step.Wants.{GivesSome};

use crate::state::host::Host;
use crate::write::note::Offered;
use crate::write::packet::write;
use model_device::Gadget;
use redir_data::{RedirData, RedirPacket, StreamKind};
use redir_wire::RedirControl;
use std::alloc::Global;
use usb_base::{Bytes, EpAddr, Memory, StreamPacket};

impl<G> Host<G> {
    /// Takes the device away, and tells so where the guest has sent its hello; false where it was taken away before.
    /// For want of memory nothing has changed.
    pub fn unplug(&mut self, out: &mut Bytes) -> Result<bool, Memory>
        ensures told { IfOk result (λ told. told ≡ not self.old.unplugged) }
        ensures makes { OnOk result (Makes (unplug_move self.old) self.new out.old out.new) }
        ensures wants { OnErr result (GivesSome self.old (unplug_move self.old)) }
        ensures err { OnErr result (self.new ≡ self.old) }
        ensures stands { OnErr result (out.new ≡ out.old) }
    {
        if self.unplugged {
            return Ok(false);
        }
        if !self.guest.first {
            let disconnect = RedirPacket::Plain(RedirControl::Disconnect);
            write(&disconnect, 0, self.guest.caps, out)?;
        }
        self.queue.clear();
        self.resets_next = false;
        self.running.clear();
        self.unplugged = true;
        Ok(true)
    }
}

impl<G: Gadget> Host<G> {
    /// Offers the guest what the device has for an endpoint whose stream runs. For want of memory `out` stands.
    pub fn offer(&mut self, alloc: Global, ep: EpAddr, out: &mut Bytes) -> Result<Offered, Memory>
        requires { IsSound self.old }
        ensures told { IfOk result (λ told. told ≡ told_offered G.meaning self.old ep) }
        ensures makes { OnOk result (Makes (offer_move G.meaning self.old ep) self.new out.old out.new) }
        ensures wants { OnErr result (GivesSome self.old (offer_move G.meaning self.old ep)) }
        ensures err { OnErr result (out.new ≡ out.old) }
    {
        if self.unplugged {
            return Ok(Offered::Unplugged);
        }
        let kind = match self.running.at(ep) {
            Some(running) => running.kind,
            None => return Ok(Offered::Closed),
        };
        match self.gadget.offer(alloc, ep)? {
            Some(packet) => {
                let packet = stream_packet(kind, ep, packet);
                write(&packet, 0, self.guest.caps, out)?;
                Ok(Offered::Sent)
            }
            None => Ok(Offered::Nothing),
        }
    }
}

/// A packet of a stream of this kind.
fn stream_packet(kind: StreamKind, ep: EpAddr, packet: StreamPacket) -> RedirPacket
    requires { length packet.body ≤ MAX_STREAM_PACKET }
    ensures { (0, result) ≡ stream_packet kind ep packet }
{
    let endpoint = ep.byte();
    let status = packet.status.to_byte();
    let length = packet.body.len() as u16;
    let body = packet.body;
    RedirPacket::Carrying(match kind {
        StreamKind::Iso => RedirData::Iso {
            endpoint,
            status,
            length,
            body,
        },
        StreamKind::Interrupt => RedirData::Interrupt {
            endpoint,
            status,
            length,
            body,
        },
    })
}
