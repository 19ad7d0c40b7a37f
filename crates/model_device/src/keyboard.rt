//! The keyboard: keys pressed one after another.
#![tactic(auto, unfolding(crate::specs::Keyboard::keyboard))]

use crate::device::Device;
use crate::function::Function;
use crate::product::Product;
use chapter9::stall;
use std::alloc::Global;
use std::marker::Model;
use usb_base::{Bytes, EpAddr, Memory, Outcome, Speed, StreamPacket, Transfer, UsbStatus};

/// Its interface (USB 2.0, tables 9-12 and 9-13).
const INTERFACE: [u8; 16] = [
    0x09, 0x04, 0x00, 0x00, 0x01, 0xFF, 0x00, 0x00, 0x00, // one endpoint, the vendor's class
    0x07, 0x05, 0x81, 0x03, 0x08, 0x00, 0x0A, // IN 1: interrupt, 8 bytes, every 10 frames
];

const PRODUCT: Product = Product {
    speed: Speed::Full,
    number: 1,
    name: b"keyboard",
    interface: &INTERFACE,
};

/// The usage ID of the key A (HID Usage Tables, keyboard page).
const KEY_A: u8 = 4;

/// How many keys there are, A to Z.
const KEYS: u8 = 26;

/// A full-speed device with an interrupt IN endpoint, on which each offer is a report of the next key. A
/// change that succeeds begins with A again.
pub type Keyboard = Device<NextKey>;

/// The key of the keyboard's next offer, counted from A.
#[derive(Drop)]
pub struct NextKey {
    key: u8,
}

impl Model for NextKey {
    ghost use Rattle.std.specs.Prelude.{ℕ, ◌<◌};
    ghost use Rattle.model_device.specs.Keyboard.{key_count};

    ghost Value = { ℕ };

    ghost view = { λ k. k.key };

    ghost invariant = { λ k. k.key < key_count };
}

impl Function for NextKey {
    ghost use Rattle.model_device.specs.Keyboard.{keyboard};
    ghost use Rattle.model_device.specs.inner.Three.{keyboard_lawful};

    ghost described = { keyboard };

    fn product() -> Product {
        PRODUCT
    }

    fn first(_alloc: Global) -> NextKey {
        NextKey { key: 0 }
    }

    fn perform(&mut self, alloc: Global, _transfer: &Transfer) -> Result<Option<Outcome>, Memory> {
        Ok(Some(stall(alloc)))
    }

    fn offer(&mut self, alloc: Global, ep: EpAddr) -> Result<Option<StreamPacket>, Memory> {
        if ep.byte() != 0x81 {
            return Ok(None);
        }
        let mut body = Bytes::new(alloc);
        body.append(&[0, 0, KEY_A + self.key, 0, 0, 0, 0, 0])?;
        self.key = (self.key + 1) % KEYS;
        Ok(Some(StreamPacket {
            status: UsbStatus::Success,
            body,
        }))
    }

    ghost lawful = { keyboard_lawful };
}
