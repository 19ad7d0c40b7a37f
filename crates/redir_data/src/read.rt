//! Reads what stands behind the header of a packet that moves data.

ghost use Rattle.std.specs.Prelude.{◌≡◌, ◌≤◌, length, drop, true, false};
ghost use Rattle.packet_stream.specs.Format.{reading};
ghost use Rattle.redir_wire.specs.Header.{is_its_length};
ghost use Rattle.redir_wire.specs.Bodies.{behind};
ghost use Rattle.redir_wire.specs.Plain.{is_plain};
ghost use Rattle.redir_wire.specs.Reads.{AnswersBehind};
ghost use Rattle.redir_data.specs.Places.{fixed, length_place, bulk_length, told_length, fields_with};
ghost use Rattle.redir_data.specs.Carrying.{transfers, has_data};
ghost use Rattle.redir_data.specs.inner.Past.{behind_left};
ghost use Rattle.redir_data.specs.inner.Least.{least, bulk_size, TellsLength};

use crate::data::data_count;
use crate::packet::RedirData;
use packet_stream::{PacketBytes, ReadError};
use redir_wire::{Caps, DataKind, Header, Way, WireError};
use std::alloc::Global;
use usb_base::{Bytes, Reason, le_u16_at, le_u32_at};

/// Reads the packet whose header this is, from the bytes behind it, as far as they have come: None where fewer than
/// the header announces are there. Where the header doesn't announce the fixed fields and the data that belong to
/// the length, the packet is refused as soon as its fixed fields are there, by `DataLength` at the length field.
/// Only data take memory, and they are copied once, when the packet is whole.
pub fn read_data(
    alloc: Global,
    head: &Header,
    way: Way,
    caps: Caps,
    bytes: &[u8],
) -> Result<Option<RedirData>, WireError>
    requires carrying { is_plain head.now.kind ≡ false }
    requires its_length { is_its_length caps head.now.kind head.now.length ≡ true }
    ensures { AnswersBehind head.now has_data result (reading (behind (transfers caps way) head.now) bytes.now) }
{
    let mut bytes = bytes;
    take_data(alloc, head, 0, way, caps, &mut bytes)
}

/// Takes a packet off the bytes, with the header before it: that is `head`, was read already, and is the first `size`
/// of them. What is taken and what is refused is as `read_data` tells.
pub(crate) fn take_data<B: PacketBytes>(
    alloc: Global,
    head: &Header,
    size: usize,
    way: Way,
    caps: Caps,
    bytes: &mut B,
) -> Result<Option<RedirData>, WireError>
    requires carrying { is_plain head.now.kind ≡ false }
    requires its_length { is_its_length caps head.now.kind head.now.length ≡ true }
    requires there { size ≤ length (B.contents bytes.old) }
    ensures exact { AnswersBehind head.now has_data result (reading (behind (transfers caps way) head.now) (drop size (B.contents bytes.old))) }
    ensures left { B.contents bytes.new ≡ behind_left size head.now result (B.contents bytes.old) }
{
    let Some(kind) = DataKind::numbered(head.kind) else {
        unreachable!()
    };
    let front = behind(bytes.as_slice(), size);
    let fixed = kind.row().fixed(caps) as usize;
    let has_fields = front.len() >= fixed;
    if !has_fields {
        return Ok(None);
    }
    let told = told_length(kind, caps, front);
    let count = data_count(way, front[0], told) as usize;
    if head.length as usize != fixed + count {
        let (place, reason) = (length_place(kind), Reason::DataLength);
        return Err(ReadError::Refused { place, reason });
    }
    if front.len() < head.length as usize {
        return Ok(None);
    }
    let mut packet = fields_with(kind, front, told, Bytes::new(alloc));
    match bytes.take_part(alloc, size + fixed, count, size + fixed + count) {
        Ok(body) => {
            packet.set_body(body);
            Ok(Some(packet))
        }
        Err(memory) => Err(ReadError::Memory(memory)),
    }
}

/// What stands behind a header of so many bytes.
pub(crate) fn behind(bytes: &[u8], size: usize) -> &[u8]
    requires { size ≤ length bytes.now }
    ensures { result.now ≡ drop size bytes.now }
{
    &bytes[size..]
}

/// The place of the length field.
fn length_place(kind: DataKind) -> u64
    ensures { result ≡ length_place kind }
{
    match kind {
        DataKind::Control => 8,
        DataKind::Bulk | DataKind::Iso | DataKind::Interrupt => 2,
    }
}

fn told_length(kind: DataKind, caps: Caps, bytes: &[u8]) -> u32
    requires { fixed caps kind ≤ length bytes.now }
    ensures value { result ≡ told_length caps kind bytes.now }
    ensures fits { TellsLength kind result }
{
    match kind {
        DataKind::Control => u32::from(le_u16_at(bytes, 8)),
        DataKind::Bulk => bulk_length(caps.contains(Caps::WIDE_BULK_LENGTH), bytes),
        DataKind::Iso | DataKind::Interrupt => u32::from(le_u16_at(bytes, 2)),
    }
}

/// The length of a bulk packet, whose upper 16 bits have a field of their own where `wide`.
fn bulk_length(wide: bool, bytes: &[u8]) -> u32
    requires { bulk_size wide ≤ length bytes.now }
    ensures { result ≡ bulk_length wide bytes.now }
{
    let low = u32::from(le_u16_at(bytes, 2));
    if wide {
        low + 0x1_0000 * u32::from(le_u16_at(bytes, 8))
    } else {
        low
    }
}

fn fields_with(kind: DataKind, bytes: &[u8], told: u32, body: Bytes) -> RedirData
    requires there { least kind ≤ length bytes.now }
    requires told { TellsLength kind told }
    ensures { result ≡ fields_with kind bytes.now told body }
{
    let (endpoint, second) = (bytes[0], bytes[1]);
    match kind {
        DataKind::Control => RedirData::Control {
            endpoint,
            request: second,
            kind: bytes[2],
            status: bytes[3],
            value: le_u16_at(bytes, 4),
            index: le_u16_at(bytes, 6),
            length: told as u16,
            body,
        },
        DataKind::Bulk => RedirData::Bulk {
            endpoint,
            status: second,
            length: told,
            stream: le_u32_at(bytes, 4),
            body,
        },
        DataKind::Iso => RedirData::Iso {
            endpoint,
            status: second,
            length: told as u16,
            body,
        },
        DataKind::Interrupt => RedirData::Interrupt {
            endpoint,
            status: second,
            length: told as u16,
            body,
        },
    }
}
