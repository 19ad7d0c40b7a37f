//! What every modelled device is.

ghost use Rattle.std.specs.Prelude.{◌≡◌, OnOk, OnErr, IfOk, IsSome};
ghost use Rattle.model_device.specs.Gadget.{IsGadget};
ghost use Rattle.model_device.specs.Meaning.{Meaning, given_in, state_in};
ghost use Rattle.model_device.specs.Transfer.{IsTransfer};

use redir_wire::{Connect, InterfaceInfo};
use std::alloc::Global;
use usb_base::{EpAddr, EpTable, Memory, Outcome, StreamPacket, Transfer};

/// The most bytes of a packet that a device sends by itself: the length field of its packet has 16 bits.
pub const MAX_STREAM_PACKET: usize = u16::MAX as usize;

/// A law: the number that definitions name is this.
pub fn stream_packet_limit()
    ensures { MAX_STREAM_PACKET ≡ 65535 }
{}

/// A USB device, as its bus sees it. Its meaning is plain data over its states, so that a host that has it and
/// a client that is attached to it directly can be compared.
pub trait Gadget: Drop {
    ghost meaning: { Meaning Self };

    /// What it tells as it is plugged in.
    fn identity(&self) -> Connect
        ensures { result ≡ meaning.identity };

    /// The configuration that is set, 0 before one is.
    fn configuration(&self) -> u8
        ensures { result ≡ meaning.configuration self.now };

    /// The interfaces of that configuration.
    fn interfaces(&self) -> InterfaceInfo
        ensures { result ≡ meaning.interfaces self.now };

    /// The endpoints that it has.
    fn table(&self) -> EpTable
        ensures { result ≡ meaning.table self.now };

    /// Performs a transfer, or answers None where it isn't ready for it yet. Then, and for want of memory, which
    /// only a transfer that it is ready for takes, nothing has changed.
    fn perform(&mut self, alloc: Global, transfer: &Transfer) -> Result<Option<Outcome>, Memory>
        requires { IsTransfer transfer.now }
        ensures outcome { IfOk result (λ outcome. outcome ≡ given_in (meaning.perform self.old transfer.now)) }
        ensures state { OnOk result (self.new ≡ state_in self.old (meaning.perform self.old transfer.now)) }
        ensures err { OnErr result (self.new ≡ self.old) }
        ensures thrifty { OnErr result (IsSome (meaning.perform self.old transfer.now)) };

    /// The packet that an IN endpoint sends by itself, or None where it has none. Then, and for want of memory, which
    /// only a packet takes, nothing has changed.
    fn offer(&mut self, alloc: Global, ep: EpAddr) -> Result<Option<StreamPacket>, Memory>
        ensures packet { IfOk result (λ packet. packet ≡ given_in (meaning.offer self.old ep)) }
        ensures state { OnOk result (self.new ≡ state_in self.old (meaning.offer self.old ep)) }
        ensures err { OnErr result (self.new ≡ self.old) }
        ensures thrifty { OnErr result (IsSome (meaning.offer self.old ep)) };

    ghost lawful: { IsGadget meaning };
}
