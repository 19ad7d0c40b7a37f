//! Writes packets that move no data.

ghost use Rattle.std.specs.Prelude.{◌≡◌, ◌<◌, ◌^◌, ◌++◌, true, false, OnOk, OnErr};
ghost use Rattle.usb_base.specs.Writes.{AppendsSome};
ghost use Rattle.redir_wire.specs.Header.{head_bytes, IdFits};
ghost use Rattle.redir_wire.specs.Written.{CanWrite, packet_bytes};

use crate::field::Wire;
use crate::header::is_wide;
use crate::kind::HELLO;
use crate::packet::{Caps, Header, RedirControl};
use crate::state::RedirState;
use byteorder::{ByteOrder, LittleEndian};
use usb_base::{Bytes, Memory};

/// Appends a packet with this id, in its form with these capabilities. For want of memory `out` stands.
pub fn write_control(
    packet: &RedirControl,
    id: u64,
    caps: Caps,
    out: &mut Bytes,
) -> Result<(), Memory>
    requires { CanWrite id caps packet.now }
    ensures ok { OnOk result (out.new ≡ out.old ++ packet_bytes id caps packet.now) }
    ensures err { OnErr result (out.new ≡ out.old) }
{
    let before = out.len();
    let pushed = push_control(packet, id, caps, out);
    out.cut_on_err(before, pushed)
}

fn push_control(packet: &RedirControl, id: u64, caps: Caps, out: &mut Bytes) -> Result<(), Memory>
    requires { CanWrite id caps packet.now }
    ensures { AppendsSome result out.old out.new (packet_bytes id caps packet.now) }
{
    let row = packet.kind().row();
    let kind = row.number;
    let length = packet.length(caps);
    let first = kind == HELLO;
    push_header(
        is_wide(RedirState { first, caps }),
        &Header { kind, length, id },
        out,
    )?;
    packet.write_fields(row.has_more(caps), &Wire, out)?;
    Ok(())
}

/// Appends a header, with an id of 64 bits where `wide`. For want of memory what was there still stands at the front.
pub fn push_header(wide: bool, header: &Header, out: &mut Bytes) -> Result<(), Memory>
    requires { IdFits wide header.now.id }
    ensures { AppendsSome result out.old out.new (head_bytes wide header.now) }
{
    if wide {
        out.append(&wide_header(header))
    } else {
        out.append(&narrow_header(header))
    }
}

/// A header whose id has 64 bits.
#[tactic(auto, unfolding(usb_base::specs::Number::le))]
fn wide_header(header: &Header) -> [u8; 16]
    ensures { result ≡ head_bytes true header.now }
{
    let mut head = [0; 16];
    let (front, id) = head.split_at_mut(8);
    LittleEndian::write_u32_into(&[header.kind, header.length], front);
    LittleEndian::write_u64(id, header.id);
    head
}

/// A header whose id has 32 bits.
#[tactic(auto, unfolding(usb_base::specs::Number::le))]
fn narrow_header(header: &Header) -> [u8; 12]
    requires { header.now.id < 2 ^ 32 }
    ensures { result ≡ head_bytes false header.now }
{
    let mut head = [0; 12];
    let numbers = [header.kind, header.length, header.id as u32];
    LittleEndian::write_u32_into(&numbers, &mut head);
    head
}
