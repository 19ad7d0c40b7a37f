//! The loop: what comes is given back.
#![tactic(auto, unfolding(crate::specs::Loopback::loopback))]

ghost use Rattle.std.specs.Prelude.{◌≡◌, ◌≤◌, IfOk, IsSome, OnOk, OnErr, length};
ghost use Rattle.model_device.specs.Loopback.{given_back, taken_in};
ghost use Rattle.model_device.specs.Meaning.{given_in, state_in};

use crate::device::Device;
use crate::function::Function;
use crate::product::Product;
use chapter9::{stall, success, taken};
use std::alloc::Global;
use std::marker::Model;
use usb_base::{Bytes, EpAddr, Memory, Outcome, Speed, StreamPacket, Transfer};

/// Its interface (USB 2.0, tables 9-12 and 9-13).
const INTERFACE: [u8; 23] = [
    0x09, 0x04, 0x00, 0x00, 0x02, 0xFF, 0x00, 0x00, 0x00, // two endpoints, the vendor's class
    0x07, 0x05, 0x01, 0x02, 0x00, 0x02, 0x00, // OUT 1: bulk, 512 bytes
    0x07, 0x05, 0x81, 0x02, 0x00, 0x02, 0x00, // IN 1: bulk, 512 bytes
];

const PRODUCT: Product = Product {
    speed: Speed::High,
    number: 2,
    name: b"loop",
    interface: &INTERFACE,
};

/// How many bytes it holds at most.
pub const MOST_HELD: usize = 1_048_576;

/// A law: the number that definitions name is this.
pub fn loopback_limit()
    ensures { MOST_HELD ≡ 1048576 }
{}

/// A high-speed device with a bulk endpoint each way: bytes that come on one are given back on the other, in
/// order, however they are cut. A change that succeeds drops what it holds.
pub type Loopback = Device<Held>;

/// The bytes that came and weren't given back.
#[derive(Drop)]
pub struct Held {
    bytes: Bytes,
}

impl Model for Held {
    ghost use Rattle.std.specs.Prelude.{ℕ, ◌≤◌, List, length};
    ghost use Rattle.model_device.specs.declared.loopback.TheConstants.{MOST_HELD};

    ghost Value = { List ℕ };

    ghost view = { λ h. h.bytes };

    ghost invariant = { λ h. length h.bytes ≤ MOST_HELD };
}

impl Function for Held {
    ghost use Rattle.model_device.specs.Loopback.{loopback};
    ghost use Rattle.model_device.specs.inner.Three.{loopback_lawful};

    ghost described = { loopback };

    fn product() -> Product {
        PRODUCT
    }

    fn first(alloc: Global) -> Held {
        Held {
            bytes: Bytes::new(alloc),
        }
    }

    fn perform(&mut self, alloc: Global, transfer: &Transfer) -> Result<Option<Outcome>, Memory> {
        if transfer.ep.is_in() {
            give_back(alloc, &mut self.bytes, transfer.wanted)
        } else {
            take_in(alloc, &mut self.bytes, transfer.body.as_slice())
        }
    }

    fn offer(&mut self, _alloc: Global, _ep: EpAddr) -> Result<Option<StreamPacket>, Memory> {
        Ok(None)
    }

    ghost lawful = { loopback_lawful };
}

// Takes bytes in, or answers None where there is no room for them yet.
fn take_in(alloc: Global, held: &mut Bytes, body: &[u8]) -> Result<Option<Outcome>, Memory>
    requires { length held.old ≤ MOST_HELD }
    ensures within { length held.new ≤ MOST_HELD }
    ensures outcome { IfOk result (λ outcome. outcome ≡ given_in (taken_in held.old body.now)) }
    ensures held { OnOk result (held.new ≡ state_in held.old (taken_in held.old body.now)) }
    ensures err { OnErr result (held.new ≡ held.old) }
    ensures thrifty { OnErr result (IsSome (taken_in held.old body.now)) }
{
    if body.len() > MOST_HELD {
        return Ok(Some(stall(alloc)));
    }
    if body.len() > MOST_HELD - held.len() {
        return Ok(None);
    }
    held.append(body)?;
    Ok(Some(taken(alloc, body.len() as u32)))
}

// Gives the first bytes back, or answers None where there are none yet.
fn give_back(alloc: Global, held: &mut Bytes, wanted: u32) -> Result<Option<Outcome>, Memory>
    ensures outcome { IfOk result (λ outcome. outcome ≡ given_in (given_back held.old wanted)) }
    ensures held { OnOk result (held.new ≡ state_in held.old (given_back held.old wanted)) }
    ensures err { OnErr result (held.new ≡ held.old) }
    ensures thrifty { OnErr result (IsSome (given_back held.old wanted)) }
{
    if held.is_empty() && wanted != 0 {
        return Ok(None);
    }
    let len = held.len().min(wanted as usize);
    let mut body = Bytes::new(alloc);
    body.append(&held.as_slice()[..len])?;
    held.skip(len);
    Ok(Some(success(body)))
}
