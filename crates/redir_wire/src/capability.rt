//! Capabilities, as the words of a hello have them ("Capabilities negotiation").

ghost use Rattle.std.specs.Prelude.{⊤, ◌≡◌, ◌≤◌, [], ◌∷◌, codes, length, IfOk};
ghost use Rattle.redir_wire.specs.Capability.{has, agreed, caps_of, hello_of, no_caps, HasBoth};

use crate::packet::{Caps, Hello, Words};
use bitflags::{Flag, Flags, bitflag_items};
use std::alloc::Global;
use usb_base::{Memory, padded};

bitflag_items! {
    impl Caps: u32 {
        /// `usb_redir_cap_connect_device_version`: a device_connect has the device's release.
        const CONNECT_VERSION = 1 << 1;
        /// `usb_redir_cap_device_disconnect_ack`: a device_disconnect is acknowledged.
        const DISCONNECT_ACK = 1 << 3;
        /// `usb_redir_cap_ep_info_max_packet_size`: an ep_info has the largest packets.
        const MAX_PACKET_SIZE = 1 << 4;
        /// `usb_redir_cap_64bits_ids`: ids have 64 bits, but for a hello's.
        const WIDE_IDS = 1 << 5;
        /// `usb_redir_cap_32bits_bulk_length`: the length of a bulk packet has 32 bits.
        const WIDE_BULK_LENGTH = 1 << 6;
    }
}

impl Flags for Caps {
    ghost use Rattle.redir_wire.specs.declared.packet.TheConstants.Caps.{CONNECT_VERSION, DISCONNECT_ACK, MAX_PACKET_SIZE, WIDE_IDS, WIDE_BULK_LENGTH};

    type Bits = u32;

    ghost exact = { ⊤ };

    ghost table = { (codes "CONNECT_VERSION", CONNECT_VERSION.0)
        ∷ (codes "DISCONNECT_ACK", DISCONNECT_ACK.0)
        ∷ (codes "MAX_PACKET_SIZE", MAX_PACKET_SIZE.0)
        ∷ (codes "WIDE_IDS", WIDE_IDS.0)
        ∷ (codes "WIDE_BULK_LENGTH", WIDE_BULK_LENGTH.0)
        ∷ [] };

    ghost set_of = { λ caps. caps.0 };

    fn flags<'a>() -> &'a [Flag<Caps>] {
        Caps::FLAGS
    }

    fn bits(&self) -> u32 {
        self.0
    }

    fn from_bits_retain(bits: u32) -> Caps {
        Caps(bits)
    }
}

impl Caps {
    /// The capabilities that the gateway announces.
    pub const ANNOUNCED: Caps = Caps(
        Self::CONNECT_VERSION.0
            | Self::DISCONNECT_ACK.0
            | Self::MAX_PACKET_SIZE.0
            | Self::WIDE_IDS.0
            | Self::WIDE_BULK_LENGTH.0,
    );

    /// No capability.
    pub fn empty() -> Caps
        ensures { result ≡ no_caps }
    {
        Flags::empty()
    }

    /// Whether each of these capabilities is there.
    pub fn contains(self, other: Caps) -> bool
        ensures { result ≡ has self other }
    {
        Flags::contains(&self, other)
    }

    /// The capabilities that both sides have.
    pub fn agreed(self, other: Caps) -> Caps
        ensures value { result ≡ agreed self other }
        ensures both { HasBoth self other result }
    {
        self.intersection(other)
    }
}

impl Hello {
    /// The hello of a program that is called so and has these capabilities, in one word.
    pub fn of(alloc: Global, name: &[u8], caps: Caps) -> Result<Hello, Memory>
        requires { length name.now ≤ 64 }
        ensures { IfOk result (λ hello. hello ≡ hello_of name.now caps) }
    {
        let mut words = Words::new(alloc);
        words.push(caps.0)?;
        Ok(Hello {
            version: padded(name),
            words,
        })
    }

    /// The capabilities that a hello tells: its first word, or none where it has no word.
    pub fn caps(&self) -> Caps
        ensures { result ≡ caps_of self.now }
    {
        match self.words.as_slice() {
            [] => Caps::empty(),
            [first, ..] => Caps::from_bits_retain(*first),
        }
    }
}
