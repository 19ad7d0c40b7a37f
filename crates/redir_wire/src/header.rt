//! Headers.

ghost use Rattle.std.specs.Prelude.{◌≡◌, ◌≤◌, length};
ghost use Rattle.packet_stream.specs.Format.{StandsAtFront, reading};
ghost use Rattle.packet_stream.specs.Reads.{Answers, IfTold};
ghost use Rattle.redir_wire.specs.State.{is_wide};
ghost use Rattle.redir_wire.specs.Header.{headers, header_at, head_size};
ghost use Rattle.redir_wire.specs.Reads.{never};

use crate::kind::{HELLO, Kind, is_left_out};
use crate::packet::{Caps, Header, HeaderRead, Way};
use crate::state::RedirState;
use packet_stream::{Read, ReadError};
use usb_base::{MAX_TRANSFER, Reason, le_u32_at, le_u64_at};

/// The greatest length that a header may tell, in bytes: the longest transfer and 64 more, which is room for the
/// fields of any data packet.
pub const MAX_LENGTH: u32 = MAX_TRANSFER + 64;

/// Reads the header at the front of what goes this way, of a stream in this state. A wrong header is refused as soon
/// as the bytes of what is wrong are there: `HelloFirst`, `UnknownType`, `NotAgreed` and `WrongWay` at place 0,
/// `TooLong26` and `BadLength` at place 4.
pub fn read_header(state: RedirState, way: Way, bytes: &[u8]) -> HeaderRead
    ensures exact { Answers never result (reading (headers state way) bytes.now) }
    ensures stands { IfTold result (StandsAtFront (headers state way) bytes.now) }
{
    if bytes.len() < 4 {
        return Ok(Read::Short);
    }
    let number = le_u32_at(bytes, 0);
    if state.first != (number == HELLO) {
        return refused(0, Reason::HelloFirst);
    }
    if is_left_out(number) {
        return refused(0, Reason::NotAgreed);
    }
    let Some(kind) = Kind::numbered(number) else {
        return refused(0, Reason::UnknownType);
    };
    let row = kind.row();
    if !row.is_agreed(state.caps) {
        return refused(0, Reason::NotAgreed);
    }
    if !row.goes(way) {
        return refused(0, Reason::WrongWay);
    }
    if bytes.len() < 8 {
        return Ok(Read::Short);
    }
    let length = le_u32_at(bytes, 4);
    if length > MAX_LENGTH {
        return refused(4, Reason::TooLong26);
    }
    if !row.has_length(state.caps, length) {
        return refused(4, Reason::BadLength);
    }
    let size = header_size(state);
    if bytes.len() < size {
        return Ok(Read::Short);
    }
    Ok(Read::Whole(header_at(is_wide(state), bytes), size))
}

fn refused(place: u64, reason: Reason) -> HeaderRead
    ensures { result ≡ Err (ReadError.Refused place reason) }
{
    Err(ReadError::Refused { place, reason })
}

/// How many bytes the next header has, of a stream in this state.
pub fn header_size(state: RedirState) -> usize
    ensures value { result ≡ head_size (is_wide state) }
    ensures small { result ≤ 16 }
{
    if is_wide(state) { 16 } else { 12 }
}

/// Whether the id of the next packet has 64 bits. A hello's never has.
pub(crate) fn is_wide(state: RedirState) -> bool
    ensures { result ≡ is_wide state }
{
    !state.first && state.caps.contains(Caps::WIDE_IDS)
}

fn header_at(wide: bool, bytes: &[u8]) -> Header
    requires { head_size wide ≤ length bytes.now }
    ensures { result ≡ header_at wide bytes.now }
{
    let id = if wide {
        le_u64_at(bytes, 8)
    } else {
        u64::from(le_u32_at(bytes, 8))
    };
    Header {
        kind: le_u32_at(bytes, 0),
        length: le_u32_at(bytes, 4),
        id,
    }
}
