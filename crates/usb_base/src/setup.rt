//! Setup packets of endpoint 0 (USB 2.0, 9.3).

ghost use Rattle.std.specs.Prelude.{◌≡◌};
ghost use Rattle.usb_base.specs.Setup.{is_in_setup, setup_at, setup_bytes, ReadsSpelled, SpellsRead};

use byteorder::{ByteOrder, LittleEndian};

/// The eight bytes that begin a control transfer, as fields. Numbers are little-endian on the wire.
#[derive(Clone, Copy)]
pub struct Setup {
    /// bmRequestType: bit 7 is the direction, bits 5 and 6 the type, bits 0 to 4 the recipient.
    pub kind: u8,
    /// bRequest.
    pub request: u8,
    /// wValue.
    pub value: u16,
    /// wIndex.
    pub index: u16,
    /// wLength, in bytes.
    pub length: u16,
}

impl Setup {
    /// The setup that these bytes spell. Any bytes spell one.
    #[tactic(auto, unfolding(crate::specs::Number::le_at))]
    pub fn read(bytes: [u8; 8]) -> Setup
        ensures { result ≡ setup_at bytes }
    {
        let [kind, request, v0, v1, i0, i1, l0, l1] = bytes;
        Setup {
            kind,
            request,
            value: u16::from_le_bytes([v0, v1]),
            index: u16::from_le_bytes([i0, i1]),
            length: u16::from_le_bytes([l0, l1]),
        }
    }

    /// Whether data go from the device, which bit 7 of bmRequestType says.
    pub fn is_in(&self) -> bool
        ensures { result ≡ is_in_setup self.now }
    {
        self.kind >= 0x80
    }

    /// The bytes that spell it.
    #[tactic(auto, unfolding(crate::specs::Number::le))]
    pub fn spell(&self) -> [u8; 8]
        ensures { result ≡ setup_bytes self.now }
    {
        let mut bytes = [self.kind, self.request, 0, 0, 0, 0, 0, 0];
        LittleEndian::write_u16(&mut bytes[2..4], self.value);
        LittleEndian::write_u16(&mut bytes[4..6], self.index);
        LittleEndian::write_u16(&mut bytes[6..8], self.length);
        bytes
    }
}

/// A law: what was read from bytes spells just them, and what was spelled is read again.
pub fn setups_spell_again()
    ensures spelled { SpellsRead }
    ensures read { ReadsSpelled }
{}
