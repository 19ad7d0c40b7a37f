//! The line of a usbredir packet.

ghost use Rattle.std.specs.Prelude.{◌++◌};
ghost use Rattle.usb_base.specs.Writes.{Appends, AppendsSome};
ghost use Rattle.packet_show.specs.Line.{decimal, spaced_words};
ghost use Rattle.packet_show.specs.Redir.{field_text, redir_line, redir_words, control_fields, data_fields};

use crate::line::{end_line, push_begin, push_bytes, push_number, push_numbers};
use redir_data::{RedirData, RedirPacket};
use redir_wire::{FieldWriter, Header, RedirControl, Wire};
use std::alloc::Global;
use usb_base::{Bytes, Memory};

/// Appends the line of a packet with its header, whose first byte stands at `place` of its stream. The header's
/// length says whether the fields are there that go with a capability. For want of memory `out` stands.
#[tactic(auto, using(crate::proofs::Words::line_spaced))]
pub fn show_redir(
    alloc: Global,
    place: u64,
    head: &Header,
    packet: &RedirPacket,
    out: &mut Bytes,
) -> Result<(), Memory>
    ensures { Appends result out.old out.new (redir_line place head.now packet.now) }
{
    let from = out.len();
    let begun = push_packet(alloc, place, head, packet, out);
    end_line(begun, from, out)
}

#[tactic(auto, using(crate::proofs::Words::spacing))]
fn push_packet(
    alloc: Global,
    place: u64,
    head: &Header,
    packet: &RedirPacket,
    out: &mut Bytes,
) -> Result<(), Memory>
    ensures { AppendsSome result out.old out.new (decimal place ++ spaced_words (redir_words head.now packet.now)) }
{
    match packet {
        RedirPacket::Plain(control) => {
            push_begin(place, control.kind().name(), out)?;
            push_number(head.id, out)?;
            push_control(alloc, head.length, control, out)?;
            Ok(())
        }
        RedirPacket::Carrying(data) => {
            push_begin(place, data.kind().name(), out)?;
            push_number(head.id, out)?;
            push_data(alloc, data, out)?;
            Ok(())
        }
    }
}

/// Appends the fields of a packet with this many bytes behind its header.
#[tactic(auto, using(crate::proofs::Words::fields_spaced))]
fn push_control(
    alloc: Global,
    length: u32,
    packet: &RedirControl,
    out: &mut Bytes,
) -> Result<(), Memory>
    ensures { AppendsSome result out.old out.new (spaced_words (control_fields length packet.now)) }
{
    let more = packet.kind().row().is_longer(length);
    packet.write_fields(more, &Line { alloc }, out)
}

/// Appends the fields of a packet that moves data, and its data.
#[tactic(auto, using(crate::proofs::Words::fields_spaced, crate::proofs::Words::spacing))]
fn push_data(alloc: Global, packet: &RedirData, out: &mut Bytes) -> Result<(), Memory>
    ensures { AppendsSome result out.old out.new (spaced_words (data_fields packet.now)) }
{
    // All that a capability adds is the upper half of a bulk packet's length, which shows no word.
    let has_upper_half = false;
    packet.write_fixed(has_upper_half, &Line { alloc }, out)?;
    push_bytes(alloc, packet.body().as_slice(), out)?;
    Ok(())
}

/// The form of a line: numbers in decimal, tables in hexadecimal, and a space before each word.
#[derive(Clone, Copy)]
struct Line {
    alloc: Global,
}

impl FieldWriter for Line {
    ghost text = { field_text };

    #[tactic(auto, unfolding(crate::specs::Redir::field_text))]
    fn bytes(&self, numbers: &[u8], out: &mut Bytes) -> Result<(), Memory> {
        push_numbers(numbers, out)
    }

    #[tactic(auto, unfolding(crate::specs::Redir::field_text))]
    fn shorts(&self, numbers: &[u16], out: &mut Bytes) -> Result<(), Memory> {
        push_numbers(numbers, out)
    }

    #[tactic(auto, unfolding(crate::specs::Redir::field_text))]
    fn longs(&self, numbers: &[u32], out: &mut Bytes) -> Result<(), Memory> {
        push_numbers(numbers, out)
    }

    #[tactic(auto, unfolding(crate::specs::Redir::field_text), using(crate::proofs::Words::spacing))]
    fn byte_table(&self, rows: &[u8], out: &mut Bytes) -> Result<(), Memory> {
        push_bytes(self.alloc, rows, out)
    }

    #[tactic(auto, unfolding(crate::specs::Redir::field_text), using(crate::proofs::Words::spacing))]
    fn short_table(&self, rows: &[u16], out: &mut Bytes) -> Result<(), Memory> {
        let mut bytes = Bytes::new(self.alloc);
        Wire.short_table(rows, &mut bytes)?;
        push_bytes(self.alloc, bytes.as_slice(), out)
    }

    #[tactic(auto, unfolding(crate::specs::Redir::field_text), using(crate::proofs::Words::spacing))]
    fn lower(&self, number: u32, out: &mut Bytes) -> Result<(), Memory> {
        push_number(number, out)
    }

    /// A number in two fields is shown where its lower half stands.
    #[tactic(auto, unfolding(crate::specs::Redir::field_text), using(crate::proofs::Words::spacing))]
    fn upper(&self, _number: u32, _out: &mut Bytes) -> Result<(), Memory> {
        Ok(())
    }
}
