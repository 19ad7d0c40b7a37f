//! Modelled USB devices: what every device is, what those have in common that answer by their descriptors, and
//! three of them, a keyboard, a loop and a tone.
#![tactic(auto)]

mod device;
mod framework;
mod function;
mod gadget;
mod keyboard;
mod loopback;
mod product;
mod submit;
mod tone;

pub use device::Device;
pub use framework::{Framework, is_done_change};
pub use function::Function;
pub use gadget::{Gadget, MAX_STREAM_PACKET, stream_packet_limit};
pub use keyboard::{Keyboard, NextKey};
pub use loopback::{Held, Loopback, loopback_limit};
pub use product::Product;
pub use submit::submits_ask_transfers;
pub use tone::{NextSample, Tone};
