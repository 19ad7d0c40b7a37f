//! Reads what stands behind a header.

ghost use Rattle.std.specs.Prelude.{◌≡◌, ◌+◌, ◌*◌, ◌≤◌, length, drop, true, IfOk, OnErr, ◌<◌};
ghost use Rattle.packet_stream.specs.Format.{fails, reading};
ghost use Rattle.redir_wire.specs.Table.{plain_row, has_length};
ghost use Rattle.redir_wire.specs.inner.Sent.{sent_bytes};
ghost use Rattle.std.specs.Int.{w16, w32};
ghost use Rattle.redir_wire.specs.Words.{numbers_of};
ghost use Rattle.redir_wire.specs.Places.{hello_at, connect_at, interface_info_at, ep_info_at};
ghost use Rattle.redir_wire.specs.Table.{fields_at};
ghost use Rattle.redir_wire.specs.Bodies.{check_behind, behind};
ghost use Rattle.redir_wire.specs.Plain.{controls, count_check, is_plain, takes_memory};
ghost use Rattle.redir_wire.specs.Header.{is_its_length};
ghost use Rattle.redir_wire.specs.Reads.{AnswersBehind};

use crate::kind::{INTERFACE_INFO, PlainKind};
use crate::packet::{
    Caps, Connect, EpInfo, Header, Hello, InterfaceInfo, MAX_INTERFACES, RedirControl, WireError,
    Words,
};
use crate::types::plain_types;
use byteorder::{ByteOrder, LittleEndian};
use packet_stream::ReadError;
use std::alloc::Global;
use usb_base::{Boxed, ENDPOINTS, Memory, Reason, array_at, le_u16_at, le_u32_at};

/// Reads the packet whose header this is, from the bytes behind it, as far as they have come: None where fewer than
/// the header announces are there. An interface_info with more than 32 interfaces is refused as soon as their
/// number is there, by `Count` at place 0 of these bytes. Only a hello, an interface_info and an ep_info take memory.
pub fn read_control(
    alloc: Global,
    head: &Header,
    caps: Caps,
    bytes: &[u8],
) -> Result<Option<RedirControl>, WireError>
    requires plain { is_plain head.now.kind ≡ true }
    requires its_length { is_its_length caps head.now.kind head.now.length ≡ true }
    ensures { AnswersBehind head.now takes_memory result (reading (behind (controls caps) head.now) bytes.now) }
{
    let Some(kind) = PlainKind::numbered(head.kind) else {
        unreachable!()
    };
    if has_too_many(head, bytes) {
        let (place, reason) = (0, Reason::Count);
        return Err(ReadError::Refused { place, reason });
    }
    if bytes.len() < head.length as usize {
        return Ok(None);
    }
    let control = control_at(alloc, kind, caps, head.length, bytes)?;
    Ok(Some(control))
}

/// Whether an interface_info tells more interfaces than there may be.
fn has_too_many(head: &Header, bytes: &[u8]) -> bool
    ensures { result ≡ fails (check_behind head.now count_check) bytes.now }
{
    head.kind == INTERFACE_INFO && bytes.len() >= 4 && le_u32_at(bytes, 0) > MAX_INTERFACES
}

/// The packet of a type: by its arm of those that are given, or of the bytes at the places in its row.
macro_rules! read_by {
    (
        ($type:expr, $bytes:ident, { $($arms:tt)* })
        $($kind:ident $((_))? $({ $($field:ident: $place:literal),* })? = $name:literal, $row:expr;)*
    ) => {
        match $type {
            $($arms)*
            $($(PlainKind::$kind => RedirControl::$kind { $($field: $bytes[$place]),* },)?)*
        }
    };
}

#[tactic(auto, unfolding(crate::specs::Words::numbers_of))]
fn control_at(
    alloc: Global,
    kind: PlainKind,
    caps: Caps,
    size: u32,
    bytes: &[u8],
) -> Result<RedirControl, Memory>
    requires its_length { has_length caps (plain_row kind) size ≡ true }
    requires there { size ≤ length bytes.now }
    ensures ok { IfOk result (λ control. control ≡ fields_at caps size kind bytes.now) }
    ensures err { OnErr result (takes_memory (fields_at caps size kind bytes.now) ≡ true) }
{
    Ok(plain_types!(read_by!(kind, bytes, {
        PlainKind::Hello => {
            let hello = hello_at(alloc, bytes, (size as usize - 64) / 4)?;
            RedirControl::Hello(Boxed::new(alloc, hello)?)
        }
        PlainKind::Connect => RedirControl::Connect(connect_at(caps.contains(Caps::CONNECT_VERSION), bytes)),
        PlainKind::InterfaceInfo => RedirControl::InterfaceInfo(Boxed::new(alloc, interface_info_at(bytes))?),
        PlainKind::EpInfo => {
            let info = ep_info_at(caps.contains(Caps::MAX_PACKET_SIZE), bytes);
            RedirControl::EpInfo(Boxed::new(alloc, info)?)
        }
    })))
}

fn hello_at(alloc: Global, bytes: &[u8], count: usize) -> Result<Hello, Memory>
    requires { 64 + count * 4 ≤ length bytes.now }
    ensures ok { IfOk result (λ hello. hello ≡ hello_at count bytes.now) }
    ensures err { OnErr result (0 < count) }
{
    let words = words_of(alloc, &bytes[64..], count)?;
    Ok(Hello {
        version: array_at(bytes, 0),
        words,
    })
}

#[tactic(auto, using(crate::proofs::Words::next_word), unfolding(crate::specs::Words::numbers_of))]
fn words_of(alloc: Global, bytes: &[u8], count: usize) -> Result<Words, Memory>
    requires { count * 4 ≤ length bytes.now }
    ensures ok { IfOk result (λ words. words ≡ numbers_of w32 count bytes.now) }
    ensures err { OnErr result (0 < count) }
{
    let mut words = Words::new(alloc);
    for i in 0..count {
        words.push(le_u32_at(bytes, i * 4))?;
    }
    Ok(words)
}

fn connect_at(sent: bool, bytes: &[u8]) -> Connect
    requires { 8 + sent_bytes sent 2 ≤ length bytes.now }
    ensures { result ≡ connect_at sent bytes.now }
{
    let version = if sent { le_u16_at(bytes, 8) } else { 0 };
    Connect {
        speed: bytes[0],
        class: bytes[1],
        subclass: bytes[2],
        protocol: bytes[3],
        vendor: le_u16_at(bytes, 4),
        product: le_u16_at(bytes, 6),
        version,
    }
}

fn interface_info_at(bytes: &[u8]) -> InterfaceInfo
    requires { 132 ≤ length bytes.now }
    ensures { result ≡ interface_info_at bytes.now }
{
    InterfaceInfo {
        count: le_u32_at(bytes, 0),
        interface: array_at(bytes, 4),
        class: array_at(bytes, 36),
        subclass: array_at(bytes, 68),
        protocol: array_at(bytes, 100),
    }
}

fn ep_info_at(sent: bool, bytes: &[u8]) -> EpInfo
    requires { 96 + sent_bytes sent 64 ≤ length bytes.now }
    ensures { result ≡ ep_info_at sent bytes.now }
{
    let max_packet = if sent {
        max_packet_at(bytes)
    } else {
        [0; ENDPOINTS]
    };
    EpInfo {
        kinds: array_at(bytes, 0),
        interval: array_at(bytes, 32),
        interface: array_at(bytes, 64),
        max_packet,
    }
}

fn max_packet_at(bytes: &[u8]) -> [u16; ENDPOINTS]
    requires { 160 ≤ length bytes.now }
    ensures { result ≡ numbers_of w16 ENDPOINTS (drop 96 bytes.now) }
{
    let mut sizes = [0; ENDPOINTS];
    LittleEndian::read_u16_into(&bytes[96..160], &mut sizes);
    sizes
}
