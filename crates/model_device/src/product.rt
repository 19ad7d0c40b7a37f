//! What devices tell of themselves that answer endpoint 0 by their descriptors.

ghost use Rattle.std.specs.Prelude.{◌≡◌, ◌<◌, ◌+◌, ◌*◌, length, IfOk};
ghost use Rattle.model_device.specs.Device.{config_of, device_bytes, set_of, string_of};

use chapter9::DescriptorSet;
use std::alloc::Global;
use usb_base::{Bytes, Memory, Speed};

/// What one device tells that others don't.
#[derive(Clone, Copy)]
pub struct Product {
    /// The speed that it runs at.
    pub speed: Speed,
    /// Its number in the device descriptor.
    pub number: u8,
    /// Its name, of ASCII characters.
    pub name: &'static [u8],
    /// The descriptors of its interface: each alternate setting with its endpoints (USB 2.0, tables 9-12 and 9-13).
    pub interface: &'static [u8],
}

impl Product {
    /// Its descriptors: its device descriptor (USB 2.0, table 9-8), with the vendor 0xFFF0, its configuration's, and
    /// its name.
    pub fn descriptors(&self, alloc: Global) -> Result<DescriptorSet, Memory>
        requires name { 2 + 2 * length self.now.name.now < 256 }
        requires interface { 9 + length self.now.interface.now < 256 }
        ensures { IfOk result (λ set. set ≡ set_of self.now.number self.now.name.now self.now.interface.now) }
    {
        Ok(DescriptorSet {
            device: device_of(self.number),
            config: config_of(alloc, self.interface)?,
            name: string_of(alloc, self.name)?,
        })
    }
}

fn device_of(number: u8) -> [u8; 18]
    ensures { result ≡ device_bytes number }
{
    [
        0x12, 0x01, 0x00, 0x02, 0x00, 0x00, 0x00, 0x40, // USB 2.00, no class, packets of 64 bytes
        0xF0, 0xFF, number, 0x00, 0x00, 0x01, // vendor 0xFFF0, the product, release 1.00
        0x00, 0x01, 0x00, 0x01, // string 1 names the product; one configuration
    ]
}

// Configuration 1 with one interface (USB 2.0, table 9-10), bus-powered, 100 mA.
fn config_of(alloc: Global, interface: &[u8]) -> Result<Bytes, Memory>
    requires { 9 + length interface.now < 256 }
    ensures { IfOk result (λ config. config ≡ config_of interface.now) }
{
    let total = 9 + interface.len() as u8;
    let mut config = Bytes::new(alloc);
    config.append(&[0x09, 0x02, total, 0x00, 0x01, 0x01, 0x00, 0x80, 0x32])?;
    config.append(interface)?;
    Ok(config)
}

// A string (USB 2.0, table 9-16), whose characters have two bytes each.
fn string_of(alloc: Global, text: &[u8]) -> Result<Bytes, Memory>
    requires { 2 + 2 * length text.now < 256 }
    ensures { IfOk result (λ string. string ≡ string_of text.now) }
{
    let total = 2 + 2 * text.len() as u8;
    let mut string = Bytes::new(alloc);
    string.append(&[total, 0x03])?;
    for letter in text {
        string.append(&[*letter, 0x00])?;
    }
    Ok(string)
}
