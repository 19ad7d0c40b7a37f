//! Reads packets of all types.

ghost use Rattle.std.specs.Prelude.{◌≡◌, ◌≤◌, true, false, length, drop};
ghost use Rattle.packet_stream.specs.Format.{StandsAtFront, reading};
ghost use Rattle.packet_stream.specs.Reads.{Answers, IfTold, bytes_left};
ghost use Rattle.redir_wire.specs.Header.{is_its_length};
ghost use Rattle.redir_wire.specs.Bodies.{behind};
ghost use Rattle.redir_wire.specs.Plain.{controls, is_plain};
ghost use Rattle.redir_data.specs.Carrying.{transfers};
ghost use Rattle.redir_data.specs.Packets.{redir_packets, takes_memory};
ghost use Rattle.redir_data.specs.inner.Past.{packet_past, past_found, error_past, IsNear};

use crate::packet::{RedirPacket, RedirRead};
use crate::read::{behind, take_data};
use packet_stream::{PacketBytes, Read, ReadError};
use redir_wire::{Caps, FIRST_DATA, Header, RedirState, Way, WireError, read_control, read_header};
use std::alloc::Global;

/// Reads the packet at the front of what goes this way, of a stream in this state. A packet is refused as soon as the
/// bytes of what is wrong are there, at its place from the packet's start, by the reasons of `read_header`,
/// `read_control` and `read_data`. Only a whole packet with data, a hello, an interface_info and an ep_info take
/// memory; data are copied once.
pub fn read_redir(
    alloc: Global,
    state: RedirState,
    way: Way,
    bytes: &[u8],
) -> Result<RedirRead, WireError>
    ensures exact { Answers takes_memory result (reading (redir_packets state way) bytes.now) }
    ensures stands { IfTold result (StandsAtFront (redir_packets state way) bytes.now) }
{
    let mut bytes = bytes;
    take_redir(alloc, state, way, &mut bytes)
}

/// Takes the packet at the front of the bytes off them, as `read_redir` reads it.
pub(crate) fn take_redir<B: PacketBytes>(
    alloc: Global,
    state: RedirState,
    way: Way,
    bytes: &mut B,
) -> Result<RedirRead, WireError>
    ensures exact { Answers takes_memory result (reading (redir_packets state way) (B.contents bytes.old)) }
    ensures left { B.contents bytes.new ≡ bytes_left result (B.contents bytes.old) }
{
    match read_header(state, way, bytes.as_slice()) {
        Ok(Read::Whole(head, size)) => take_behind(alloc, head, size, state.caps, way, bytes),
        Ok(Read::Short) => Ok(Read::Short),
        Err(error) => Err(error),
    }
}

fn take_behind<B: PacketBytes>(
    alloc: Global,
    head: Header,
    size: usize,
    caps: Caps,
    way: Way,
    bytes: &mut B,
) -> Result<RedirRead, WireError>
    requires its_length { is_its_length caps head.kind head.length ≡ true }
    requires size { size ≤ 16 }
    requires there { size ≤ length (B.contents bytes.old) }
    ensures exact { Answers takes_memory result (past_found caps way size head (drop size (B.contents bytes.old))) }
    ensures left { B.contents bytes.new ≡ bytes_left result (B.contents bytes.old) }
{
    if head.kind < FIRST_DATA {
        take_plain_packet(alloc, head, size, caps, bytes)
    } else {
        take_data_packet(alloc, head, size, caps, way, bytes)
    }
}

fn take_plain_packet<B: PacketBytes>(
    alloc: Global,
    head: Header,
    size: usize,
    caps: Caps,
    bytes: &mut B,
) -> Result<RedirRead, WireError>
    requires plain { is_plain head.kind ≡ true }
    requires its_length { is_its_length caps head.kind head.length ≡ true }
    requires size { size ≤ 16 }
    requires there { size ≤ length (B.contents bytes.old) }
    ensures exact { Answers takes_memory result (packet_past RedirPacket.Plain size head (reading (behind (controls caps) head) (drop size (B.contents bytes.old)))) }
    ensures left { B.contents bytes.new ≡ bytes_left result (B.contents bytes.old) }
{
    match read_control(alloc, &head, caps, behind(bytes.as_slice(), size)) {
        Ok(Some(control)) => {
            let all = size + head.length as usize;
            bytes.advance(all);
            Ok(Read::Whole((head, RedirPacket::Plain(control)), all))
        }
        Ok(None) => Ok(Read::Short),
        Err(error) => Err(past_header(size, error)),
    }
}

fn take_data_packet<B: PacketBytes>(
    alloc: Global,
    head: Header,
    size: usize,
    caps: Caps,
    way: Way,
    bytes: &mut B,
) -> Result<RedirRead, WireError>
    requires carrying { is_plain head.kind ≡ false }
    requires its_length { is_its_length caps head.kind head.length ≡ true }
    requires size { size ≤ 16 }
    requires there { size ≤ length (B.contents bytes.old) }
    ensures exact { Answers takes_memory result (packet_past RedirPacket.Carrying size head (reading (behind (transfers caps way) head) (drop size (B.contents bytes.old)))) }
    ensures left { B.contents bytes.new ≡ bytes_left result (B.contents bytes.old) }
{
    match take_data(alloc, &head, size, way, caps, bytes) {
        Ok(Some(data)) => {
            let all = size + head.length as usize;
            Ok(Read::Whole((head, RedirPacket::Carrying(data)), all))
        }
        Ok(None) => Ok(Read::Short),
        Err(error) => Err(past_header(size, error)),
    }
}

/// The same error, its place counted from the start of a header of this size.
fn past_header(size: usize, error: ReadError) -> ReadError
    requires size { size ≤ 16 }
    requires near { IsNear error }
    ensures { result ≡ error_past size error }
{
    match error {
        ReadError::Refused { place, reason } => ReadError::Refused {
            place: size as u64 + place,
            reason,
        },
        ReadError::Memory(memory) => ReadError::Memory(memory),
    }
}
