//! Numbers and fixed fields at places of a packet, and at its end.

ghost use Rattle.std.specs.Prelude.{◌≡◌, ◌+◌, ◌++◌, ◌≤◌, length, OnOk, OnErr};
ghost use Rattle.std.specs.Int.{w16, w32, w64};
ghost use Rattle.usb_base.specs.Number.{be, le, be_at, le_at, part};

use crate::list::Bytes;
use crate::memory::Memory;
use byteorder::{BigEndian, ByteOrder, LittleEndian};

/// The N bytes at a place.
pub fn array_at<const N: usize>(bytes: &[u8], place: usize) -> [u8; N]
    requires { place + N ≤ length bytes.now }
    ensures { result ≡ part place N bytes.now }
{
    let Some(field) = bytes[place..].first_chunk::<N>() else {
        unreachable!();
    };
    *field
}

/// The big-endian u16 at a place.
#[tactic(auto, unfolding(crate::specs::Number::be_at))]
pub fn be_u16_at(bytes: &[u8], place: usize) -> u16
    requires { place + 2 ≤ length bytes.now }
    ensures { result ≡ be_at w16 place bytes.now }
{
    u16::from_be_bytes(array_at(bytes, place))
}

/// The big-endian u32 at a place.
#[tactic(auto, unfolding(crate::specs::Number::be_at))]
pub fn be_u32_at(bytes: &[u8], place: usize) -> u32
    requires { place + 4 ≤ length bytes.now }
    ensures { result ≡ be_at w32 place bytes.now }
{
    u32::from_be_bytes(array_at(bytes, place))
}

/// The little-endian u16 at a place.
#[tactic(auto, unfolding(crate::specs::Number::le_at))]
pub fn le_u16_at(bytes: &[u8], place: usize) -> u16
    requires { place + 2 ≤ length bytes.now }
    ensures { result ≡ le_at w16 place bytes.now }
{
    u16::from_le_bytes(array_at(bytes, place))
}

/// The little-endian u32 at a place.
#[tactic(auto, unfolding(crate::specs::Number::le_at))]
pub fn le_u32_at(bytes: &[u8], place: usize) -> u32
    requires { place + 4 ≤ length bytes.now }
    ensures { result ≡ le_at w32 place bytes.now }
{
    u32::from_le_bytes(array_at(bytes, place))
}

/// The little-endian u64 at a place.
#[tactic(auto, unfolding(crate::specs::Number::le_at))]
pub fn le_u64_at(bytes: &[u8], place: usize) -> u64
    requires { place + 8 ≤ length bytes.now }
    ensures { result ≡ le_at w64 place bytes.now }
{
    u64::from_le_bytes(array_at(bytes, place))
}

/// Appends a u16, big-endian.
#[tactic(auto, unfolding(crate::specs::Number::be))]
pub fn push_be_u16(out: &mut Bytes, n: u16) -> Result<(), Memory>
    ensures ok { OnOk result (out.new ≡ out.old ++ be w16 n) }
    ensures err { OnErr result (out.new ≡ out.old) }
{
    let mut field = [0; 2];
    BigEndian::write_u16(&mut field, n);
    out.append(&field)
}

/// Appends a u32, big-endian.
#[tactic(auto, unfolding(crate::specs::Number::be))]
pub fn push_be_u32(out: &mut Bytes, n: u32) -> Result<(), Memory>
    ensures ok { OnOk result (out.new ≡ out.old ++ be w32 n) }
    ensures err { OnErr result (out.new ≡ out.old) }
{
    let mut field = [0; 4];
    BigEndian::write_u32(&mut field, n);
    out.append(&field)
}

/// Appends a u16, little-endian.
#[tactic(auto, unfolding(crate::specs::Number::le))]
pub fn push_le_u16(out: &mut Bytes, n: u16) -> Result<(), Memory>
    ensures ok { OnOk result (out.new ≡ out.old ++ le w16 n) }
    ensures err { OnErr result (out.new ≡ out.old) }
{
    let mut field = [0; 2];
    LittleEndian::write_u16(&mut field, n);
    out.append(&field)
}

/// Appends a u32, little-endian.
#[tactic(auto, unfolding(crate::specs::Number::le))]
pub fn push_le_u32(out: &mut Bytes, n: u32) -> Result<(), Memory>
    ensures ok { OnOk result (out.new ≡ out.old ++ le w32 n) }
    ensures err { OnErr result (out.new ≡ out.old) }
{
    let mut field = [0; 4];
    LittleEndian::write_u32(&mut field, n);
    out.append(&field)
}

/// Appends a u64, little-endian.
#[tactic(auto, unfolding(crate::specs::Number::le))]
pub fn push_le_u64(out: &mut Bytes, n: u64) -> Result<(), Memory>
    ensures ok { OnOk result (out.new ≡ out.old ++ le w64 n) }
    ensures err { OnErr result (out.new ≡ out.old) }
{
    let mut field = [0; 8];
    LittleEndian::write_u64(&mut field, n);
    out.append(&field)
}
