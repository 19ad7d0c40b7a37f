//! What packets that move no data have in common: their type, their length, and their fields in the order of the wire.

ghost use Rattle.std.specs.Prelude.{false, ◌≡◌, ◌≤◌, flat_map};
ghost use Rattle.usb_base.specs.Writes.{AppendsSome};
ghost use Rattle.redir_wire.specs.Spelling.{kind_of, length_of, words_length, fields_of};
ghost use Rattle.redir_wire.specs.Ranges.{IsWritable};

use crate::field::FieldWriter;
use crate::kind::PlainKind;
use crate::packet::{Caps, Connect, EpInfo, InterfaceInfo, RedirControl};
use crate::types::plain_types;
use usb_base::{Bytes, Memory};

/// The type of a packet.
macro_rules! kind_of {
    (($packet:expr) $($kind:ident $fields:tt = $name:literal, $row:expr;)*) => {
        match $packet {
            $(RedirControl::$kind { .. } => PlainKind::$kind,)*
        }
    };
}

/// Writes a packet: by its arm of those that are given, or its bytes in the order of its row.
macro_rules! write_by {
    (
        ($packet:expr, $writer:ident, $out:ident, { $($arms:tt)* })
        $($kind:ident $((_))? $({ $($field:ident: $place:literal),* })? = $name:literal, $row:expr;)*
    ) => {
        match $packet {
            $($arms)*
            $($(RedirControl::$kind { $($field),* } => write_bytes!($writer, $out, $($field),*),)?)*
        }
    };
}

/// Writes these bytes, or no field where there are none.
macro_rules! write_bytes {
    ($writer:ident, $out:ident,) => { Ok(()) };
    ($writer:ident, $out:ident, $($byte:ident),+) => { $writer.bytes(&[$(*$byte),+], $out) };
}

impl RedirControl {
    /// Its type.
    pub fn kind(&self) -> PlainKind
        ensures { result ≡ kind_of self.now }
    {
        plain_types!(kind_of!(self))
    }

    /// How many bytes follow its header.
    pub(crate) fn length(&self, caps: Caps) -> u32
        requires { IsWritable caps self.now }
        ensures { result ≡ length_of caps self.now }
    {
        self.kind().row().fixed(caps) + self.words_length()
    }

    /// How many bytes a hello has behind its text.
    fn words_length(&self) -> u32
        requires { words_length self.now ≤ 128 }
        ensures { result ≡ words_length self.now }
    {
        match self {
            RedirControl::Hello(hello) => hello.get().words.len() as u32 * 4,
            _ => 0,
        }
    }

    /// Appends its fields in this form; `more` says that those are there that go with a capability. For want of memory
    /// what was there still stands at the front.
    pub fn write_fields<W: FieldWriter>(
        &self,
        more: bool,
        writer: &W,
        out: &mut Bytes,
    ) -> Result<(), Memory>
        ensures { AppendsSome result out.old out.new (flat_map W.text (fields_of more self.now)) }
    {
        plain_types!(write_by!(self, writer, out, {
            RedirControl::Hello(hello) => {
                let hello = hello.get();
                writer.byte_table(&hello.version, out)?;
                writer.longs(hello.words.as_slice(), out)
            }
            RedirControl::Connect(connect) => write_connect(connect, more, writer, out),
            RedirControl::InterfaceInfo(info) => write_interface_info(info.get(), writer, out),
            RedirControl::EpInfo(info) => write_ep_info(info.get(), more, writer, out),
        }))
    }
}

fn write_connect<W: FieldWriter>(
    connect: &Connect,
    more: bool,
    writer: &W,
    out: &mut Bytes,
) -> Result<(), Memory>
    ensures { AppendsSome result out.old out.new (flat_map W.text (fields_of more (RedirControl.Connect connect.now))) }
{
    let codes = [
        connect.speed,
        connect.class,
        connect.subclass,
        connect.protocol,
    ];
    writer.bytes(&codes, out)?;
    writer.shorts(&[connect.vendor, connect.product], out)?;
    if more {
        writer.shorts(&[connect.version], out)?;
    }
    Ok(())
}

fn write_interface_info<W: FieldWriter>(
    info: &InterfaceInfo,
    writer: &W,
    out: &mut Bytes,
) -> Result<(), Memory>
    ensures { AppendsSome result out.old out.new (flat_map W.text (fields_of false (RedirControl.InterfaceInfo info.now))) }
{
    writer.longs(&[info.count], out)?;
    writer.byte_table(&info.interface, out)?;
    writer.byte_table(&info.class, out)?;
    writer.byte_table(&info.subclass, out)?;
    writer.byte_table(&info.protocol, out)?;
    Ok(())
}

fn write_ep_info<W: FieldWriter>(
    info: &EpInfo,
    more: bool,
    writer: &W,
    out: &mut Bytes,
) -> Result<(), Memory>
    ensures { AppendsSome result out.old out.new (flat_map W.text (fields_of more (RedirControl.EpInfo info.now))) }
{
    writer.byte_table(&info.kinds, out)?;
    writer.byte_table(&info.interval, out)?;
    writer.byte_table(&info.interface, out)?;
    let sizes: &[u16] = if more { &info.max_packet } else { &[] };
    writer.short_table(sizes, out)?;
    Ok(())
}
