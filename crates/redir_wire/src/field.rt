//! The fields of packets: in which forms they are written, of which the wire's is one.

ghost use Rattle.std.specs.Prelude.{List, ℕ};
ghost use Rattle.usb_base.specs.Writes.{AppendsSome};
ghost use Rattle.std.specs.Int.{w16, w32};
ghost use Rattle.redir_wire.specs.Words.{numbers as numbers_bytes};
ghost use Rattle.redir_wire.specs.Field.{Field, Bytes as ByteFields, Shorts, Longs, ByteTable, ShortTable, Lower, Upper, field_bytes};

use usb_base::{Bytes, Memory, push_le_u16, push_le_u32};

/// A form in which fields are written one behind another, a call a kind of field. For want of memory what was there
/// still stands at the front of `out`.
pub trait FieldWriter {
    /// What stands for a field.
    ghost text: { Field → List ℕ };

    /// Appends numbers of 8 bits.
    fn bytes(&self, numbers: &[u8], out: &mut Bytes) -> Result<(), Memory>
        ensures { AppendsSome result out.old out.new (text (ByteFields numbers.now)) };

    /// Appends numbers of 16 bits.
    fn shorts(&self, numbers: &[u16], out: &mut Bytes) -> Result<(), Memory>
        ensures { AppendsSome result out.old out.new (text (Shorts numbers.now)) };

    /// Appends numbers of 32 bits.
    fn longs(&self, numbers: &[u32], out: &mut Bytes) -> Result<(), Memory>
        ensures { AppendsSome result out.old out.new (text (Longs numbers.now)) };

    /// Appends a table of numbers of 8 bits.
    fn byte_table(&self, rows: &[u8], out: &mut Bytes) -> Result<(), Memory>
        ensures { AppendsSome result out.old out.new (text (ByteTable rows.now)) };

    /// Appends a table of numbers of 16 bits.
    fn short_table(&self, rows: &[u16], out: &mut Bytes) -> Result<(), Memory>
        ensures { AppendsSome result out.old out.new (text (ShortTable rows.now)) };

    /// Appends the field that has the lower 16 bits of a number.
    fn lower(&self, number: u32, out: &mut Bytes) -> Result<(), Memory>
        ensures { AppendsSome result out.old out.new (text (Lower number)) };

    /// Appends the field that has its upper 16 bits.
    fn upper(&self, number: u32, out: &mut Bytes) -> Result<(), Memory>
        ensures { AppendsSome result out.old out.new (text (Upper number)) };
}

/// The form of the wire: numbers little-endian, and nothing between them.
#[derive(Clone, Copy)]
pub struct Wire;

impl FieldWriter for Wire {
    ghost text = { field_bytes };

    fn bytes(&self, numbers: &[u8], out: &mut Bytes) -> Result<(), Memory> {
        out.append(numbers)
    }

    fn shorts(&self, numbers: &[u16], out: &mut Bytes) -> Result<(), Memory> {
        push_shorts(numbers, out)
    }

    fn longs(&self, numbers: &[u32], out: &mut Bytes) -> Result<(), Memory> {
        push_longs(numbers, out)
    }

    fn byte_table(&self, rows: &[u8], out: &mut Bytes) -> Result<(), Memory> {
        out.append(rows)
    }

    fn short_table(&self, rows: &[u16], out: &mut Bytes) -> Result<(), Memory> {
        push_shorts(rows, out)
    }

    fn lower(&self, number: u32, out: &mut Bytes) -> Result<(), Memory> {
        push_le_u16(out, (number % 0x1_0000) as u16)
    }

    fn upper(&self, number: u32, out: &mut Bytes) -> Result<(), Memory> {
        push_le_u16(out, (number / 0x1_0000) as u16)
    }
}

fn push_shorts(numbers: &[u16], out: &mut Bytes) -> Result<(), Memory>
    ensures { AppendsSome result out.old out.new (numbers_bytes w16 numbers.now) }
{
    for number in numbers {
        push_le_u16(out, *number)?;
    }
    Ok(())
}

fn push_longs(numbers: &[u32], out: &mut Bytes) -> Result<(), Memory>
    ensures { AppendsSome result out.old out.new (numbers_bytes w32 numbers.now) }
{
    for number in numbers {
        push_le_u32(out, *number)?;
    }
    Ok(())
}
