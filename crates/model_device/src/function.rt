//! What devices differ in that answer endpoint 0 by their descriptors.

ghost use Rattle.std.specs.Prelude.{◌≡◌, ◌<◌, ◌+◌, ◌*◌, length, OnOk, OnErr, IfOk, IsSome};
ghost use Rattle.model_device.specs.Device.{Device, set_of};
ghost use Rattle.model_device.specs.Function.{IsFunction};
ghost use Rattle.model_device.specs.Meaning.{given_in, state_in};
ghost use Rattle.model_device.specs.Transfer.{IsTransfer};

use crate::product::Product;
use std::alloc::Global;
use usb_base::{EpAddr, Memory, Outcome, StreamPacket, Transfer};

/// The function that a device has for its host: what it tells of itself, and what its own endpoints do. Its value is
/// what it keeps beside the state that requests of endpoint 0 change.
pub trait Function: Drop {
    ghost described: { Device Self };

    /// What it tells of itself.
    fn product() -> Product
        ensures speed { result.speed ≡ described.speed }
        ensures set { set_of result.number result.name.now result.interface.now ≡ described.set }
        ensures name { 2 + 2 * length result.name.now < 256 }
        ensures interface { 9 + length result.interface.now < 256 };

    /// What it keeps as it is plugged in, and after each change that succeeds.
    fn first(alloc: Global) -> Self
        ensures { result ≡ described.first };

    /// Performs a transfer of an endpoint other than 0 that is there and isn't halted, or answers None where it isn't
    /// ready for it yet. Then, and for want of memory, which only a transfer that it is ready for takes, nothing has
    /// changed.
    fn perform(&mut self, alloc: Global, transfer: &Transfer) -> Result<Option<Outcome>, Memory>
        requires { IsTransfer transfer.now }
        ensures outcome { IfOk result (λ outcome. outcome ≡ given_in (described.transfer self.old transfer.now)) }
        ensures state { OnOk result (self.new ≡ state_in self.old (described.transfer self.old transfer.now)) }
        ensures err { OnErr result (self.new ≡ self.old) }
        ensures thrifty { OnErr result (IsSome (described.transfer self.old transfer.now)) };

    /// The packet that an endpoint which is there and isn't halted sends by itself, or None where it has none. Then,
    /// and for want of memory, which only a packet takes, nothing has changed.
    fn offer(&mut self, alloc: Global, ep: EpAddr) -> Result<Option<StreamPacket>, Memory>
        ensures packet { IfOk result (λ packet. packet ≡ given_in (described.packet self.old ep)) }
        ensures state { OnOk result (self.new ≡ state_in self.old (described.packet self.old ep)) }
        ensures err { OnErr result (self.new ≡ self.old) }
        ensures thrifty { OnErr result (IsSome (described.packet self.old ep)) };

    ghost lawful: { IsFunction described };
}
