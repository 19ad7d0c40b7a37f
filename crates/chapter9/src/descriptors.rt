//! A configuration's bytes, walked descriptor by descriptor.

ghost use Rattle.std.specs.Prelude.{◌≡◌, ◌≤◌, length, drop, Some, None, IfOk, IsTrue, if◌then◌else◌};
ghost use Rattle.usb_base.specs.Endpoint.{is_address};
ghost use Rattle.usb_base.specs.Number.{byte_at};
ghost use Rattle.chapter9.specs.Descriptors.{AreJoined, endpoint_at, interface_at, is_configuration, is_right, part_at, parts_of, wrong_place};
ghost use Rattle.chapter9.specs.Answers.{IfBad, OnMemory};
ghost use Rattle.chapter9.specs.declared.part.Part.TheVariants.{Config};

use crate::part::{Part, Parts};
use std::alloc::Global;
use usb_base::{EpAddr, EpKind, Memory, le_u16_at};

/// bDescriptorType of a configuration (USB 2.0, table 9-5).
const CONFIGURATION: u8 = 2;

/// bDescriptorType of an interface.
const INTERFACE: u8 = 4;

/// bDescriptorType of an endpoint.
const ENDPOINT: u8 = 5;

/// Why a configuration isn't walked.
#[derive(Clone, Copy, Debug)]
pub enum WalkError {
    /// The first wrong descriptor stands at this place, counted in bytes.
    Bad { place: usize },
    /// No memory was left for the parts.
    Memory(Memory),
}

impl From<Memory> for WalkError {
    ghost use Rattle.std.specs.Prelude.{◌≡◌};
    ghost use Rattle.chapter9.specs.declared.descriptors.WalkError.TheVariants.{Memory as OutOfMemory};

    ghost from_gives = { λ memory error. error ≡ OutOfMemory memory };

    fn from(memory: Memory) -> Self {
        WalkError::Memory(memory)
    }
}

/// Reads a configuration: its own descriptor and all those after it, as GET_DESCRIPTOR gives them (USB 2.0,
/// 9.4.3), in one pass. The first descriptor is wrong where it isn't a whole configuration descriptor that
/// tells the blob's own length, a later one where its length is below 2 or passes the end, or where an
/// interface or an endpoint is too short, or one of bits 4 to 6 of an endpoint's address is set.
pub fn walk(alloc: Global, blob: &[u8]) -> Result<Parts, WalkError>
    ensures right { IfOk result (λ parts. wrong_place blob.now ≡ None) }
    ensures parts { IfOk result (λ parts. parts ≡ parts_of blob.now) }
    ensures bad { IfBad result (λ place. wrong_place blob.now ≡ Some place) }
    ensures thrifty { OnMemory result (IsTrue (is_configuration blob.now)) }
{
    let Some(configuration) = configuration(blob) else {
        return Err(WalkError::Bad { place: 0 });
    };
    let mut parts = Parts::new(alloc);
    parts.push(configuration)?;
    let mut place = usize::from(blob[0]);
    while place < blob.len() {
        let rest = behind(blob, place);
        let Some(part) = part(rest) else {
            return Err(WalkError::Bad { place });
        };
        parts.push(part)?;
        place += usize::from(rest[0]);
    }
    Ok(parts)
}

/// A law: a configuration without a wrong descriptor is its descriptors, one behind another.
pub fn descriptors_join()
    ensures { AreJoined }
{}

/// What stands from a place on.
fn behind(bytes: &[u8], place: usize) -> &[u8]
    requires { place ≤ length bytes.now }
    ensures { result.now ≡ drop place bytes.now }
{
    &bytes[place..]
}

/// The configuration's own descriptor, if it is right.
fn configuration(blob: &[u8]) -> Option<Part>
    ensures { result ≡ (if is_configuration blob.now then Some (Config (byte_at 5 blob.now) (byte_at 4 blob.now)) else None) }
{
    if blob.len() < 9 || blob[0] < 9 || usize::from(blob[0]) > blob.len() {
        return None;
    }
    if blob[1] != CONFIGURATION || usize::from(le_u16_at(blob, 2)) != blob.len() {
        return None;
    }
    Some(Part::Config {
        value: blob[5],
        interfaces: blob[4],
    })
}

/// The later descriptor at the front of the bytes, if it is right.
fn part(bytes: &[u8]) -> Option<Part>
    ensures { result ≡ (if is_right bytes.now then Some (part_at bytes.now) else None) }
{
    if bytes.len() < 2 || bytes[0] < 2 || usize::from(bytes[0]) > bytes.len() {
        return None;
    }
    match bytes[1] {
        INTERFACE if bytes[0] >= 9 => Some(interface(bytes)),
        ENDPOINT if bytes[0] >= 7 => endpoint(bytes),
        INTERFACE | ENDPOINT => None,
        kind => Some(Part::Other { kind }),
    }
}

fn interface(bytes: &[u8]) -> Part
    requires { 9 ≤ length bytes.now }
    ensures { result ≡ interface_at bytes.now }
{
    Part::Interface {
        number: bytes[2],
        alt: bytes[3],
        class: bytes[5],
        subclass: bytes[6],
        protocol: bytes[7],
    }
}

/// The endpoint, if bits 4 to 6 of its address are clear.
fn endpoint(bytes: &[u8]) -> Option<Part>
    requires { 7 ≤ length bytes.now }
    ensures { result ≡ (if is_address (byte_at 2 bytes.now) then Some (endpoint_at bytes.now) else None) }
{
    let ep = EpAddr::new(bytes[2])?;
    Some(Part::Endpoint {
        ep,
        kind: EpKind::from_byte(bytes[3] % 4),
        max_packet: le_u16_at(bytes, 4) % 0x800,
        interval: bytes[6],
    })
}
