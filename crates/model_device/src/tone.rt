//! The tone: samples that rise with each packet.
#![tactic(auto, unfolding(crate::specs::Tone::tone))]

ghost use Rattle.std.specs.Prelude.{◌≡◌, IfOk};
ghost use Rattle.model_device.specs.Tone.{samples};

use crate::device::Device;
use crate::function::Function;
use crate::product::Product;
use chapter9::stall;
use std::alloc::Global;
use std::marker::Model;
use usb_base::{Bytes, EpAddr, Memory, Outcome, Speed, StreamPacket, Transfer, UsbStatus};

/// Its interface (USB 2.0, tables 9-12 and 9-13).
const INTERFACE: [u8; 25] = [
    0x09, 0x04, 0x00, 0x00, 0x00, 0xFF, 0x00, 0x00, 0x00, // setting 0: no endpoint
    0x09, 0x04, 0x00, 0x01, 0x01, 0xFF, 0x00, 0x00, 0x00, // setting 1: one endpoint
    0x07, 0x05, 0x81, 0x01, 0xC0, 0x00, 0x01, // IN 1: isochronous, 192 bytes, every frame
];

const PRODUCT: Product = Product {
    speed: Speed::Full,
    number: 3,
    name: b"tone",
    interface: &INTERFACE,
};

/// How many bytes a packet has.
const PACKET: usize = 192;

/// A full-speed device whose alternate setting 1 has an isochronous IN endpoint. Each offer there is a packet
/// of one byte repeated, which is 0 after a change that succeeds and then 1 more with each packet, modulo 256.
pub type Tone = Device<NextSample>;

/// The byte of the tone's next offer.
#[derive(Drop)]
pub struct NextSample {
    sample: u8,
}

impl Model for NextSample {
    ghost use Rattle.std.specs.Prelude.{ℕ};

    ghost Value = { ℕ };

    ghost view = { λ s. s.sample };
}

impl Function for NextSample {
    ghost use Rattle.model_device.specs.Tone.{tone};
    ghost use Rattle.model_device.specs.inner.Three.{tone_lawful};

    ghost described = { tone };

    fn product() -> Product {
        PRODUCT
    }

    fn first(_alloc: Global) -> NextSample {
        NextSample { sample: 0 }
    }

    fn perform(&mut self, alloc: Global, _transfer: &Transfer) -> Result<Option<Outcome>, Memory> {
        Ok(Some(stall(alloc)))
    }

    fn offer(&mut self, alloc: Global, ep: EpAddr) -> Result<Option<StreamPacket>, Memory> {
        if ep.byte() != 0x81 {
            return Ok(None);
        }
        let body = samples(alloc, self.sample)?;
        self.sample = self.sample.wrapping_add(1);
        Ok(Some(StreamPacket {
            status: UsbStatus::Success,
            body,
        }))
    }

    ghost lawful = { tone_lawful };
}

// The bytes of a packet: one sample, repeated.
#[tactic(auto, unfolding(crate::specs::Tone::samples))]
fn samples(alloc: Global, sample: u8) -> Result<Bytes, Memory>
    ensures { IfOk result (λ body. body ≡ samples sample) }
{
    let mut body = Bytes::new(alloc);
    body.append(&[sample; PACKET])?;
    Ok(body)
}
