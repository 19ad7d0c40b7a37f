//! What packets that move data have in common.

ghost use Rattle.std.specs.Prelude.{◌≡◌, ◌↔◌, IsTrue, flat_map};
ghost use Rattle.usb_base.specs.Writes.{AppendsSome};
ghost use Rattle.redir_data.specs.Spelling.{form_of, carries, data_count, bulk, periodic, fixed_of};
ghost use Rattle.redir_data.specs.Ranges.{HasItsData};
ghost use Rattle.redir_data.specs.inner.Past.{with_body};

use crate::packet::RedirData;
use redir_wire::{DataKind, FieldWriter, Way};
use usb_base::{Bytes, Memory, is_in_endpoint};

impl RedirData {
    /// Its type.
    pub fn kind(&self) -> DataKind
        ensures { result ≡ (form_of self.now).kind }
    {
        match self {
            RedirData::Control { .. } => DataKind::Control,
            RedirData::Bulk { .. } => DataKind::Bulk,
            RedirData::Iso { .. } => DataKind::Iso,
            RedirData::Interrupt { .. } => DataKind::Interrupt,
        }
    }

    /// The byte of its endpoint's address.
    pub fn endpoint(&self) -> u8
        ensures { result ≡ (form_of self.now).endpoint }
    {
        match self {
            RedirData::Control { endpoint, .. }
            | RedirData::Bulk { endpoint, .. }
            | RedirData::Iso { endpoint, .. }
            | RedirData::Interrupt { endpoint, .. } => *endpoint,
        }
    }

    /// How many bytes were asked for or moved.
    pub fn length(&self) -> u32
        ensures { result ≡ (form_of self.now).told }
    {
        match self {
            RedirData::Bulk { length, .. } => *length,
            RedirData::Control { length, .. }
            | RedirData::Iso { length, .. }
            | RedirData::Interrupt { length, .. } => u32::from(*length),
        }
    }

    /// Its data.
    pub fn body(&self) -> &Bytes
        ensures { result.now ≡ (form_of self.now).body }
    {
        match self {
            RedirData::Control { body, .. }
            | RedirData::Bulk { body, .. }
            | RedirData::Iso { body, .. }
            | RedirData::Interrupt { body, .. } => body,
        }
    }

    /// Its data alone.
    pub fn into_body(self) -> Bytes
        ensures { result ≡ (form_of self).body }
    {
        match self {
            RedirData::Control { body, .. }
            | RedirData::Bulk { body, .. }
            | RedirData::Iso { body, .. }
            | RedirData::Interrupt { body, .. } => body,
        }
    }

    /// Puts these data in the place of its own.
    pub(crate) fn set_body(&mut self, bytes: Bytes)
        ensures { self.new ≡ with_body self.old bytes }
    {
        match self {
            RedirData::Control { body, .. } => *body = bytes,
            RedirData::Bulk { body, .. } => *body = bytes,
            RedirData::Iso { body, .. } => *body = bytes,
            RedirData::Interrupt { body, .. } => *body = bytes,
        }
    }

    /// Whether it has as many data as its length tells, where packets of its endpoint carry data this way, and
    /// else none.
    pub fn has_its_data(&self, way: Way) -> bool
        ensures { IsTrue result ↔ HasItsData way self.now }
    {
        self.body().len() == data_count(way, self.endpoint(), self.length()) as usize
    }

    /// Appends the fields before its data in this form; `more` says that those are there that go with a capability.
    /// For want of memory what was there still stands at the front.
    pub fn write_fixed<W: FieldWriter>(
        &self,
        more: bool,
        writer: &W,
        out: &mut Bytes,
    ) -> Result<(), Memory>
        ensures { AppendsSome result out.old out.new (flat_map W.text (fixed_of more self.now)) }
    {
        match self {
            RedirData::Control {
                endpoint,
                request,
                kind,
                status,
                value,
                index,
                length,
                ..
            } => {
                writer.bytes(&[*endpoint, *request, *kind, *status], out)?;
                writer.shorts(&[*value, *index, *length], out)
            }
            RedirData::Bulk {
                endpoint,
                status,
                length,
                stream,
                ..
            } => write_bulk(more, *endpoint, *status, *length, *stream, writer, out),
            RedirData::Iso {
                endpoint,
                status,
                length,
                ..
            }
            | RedirData::Interrupt {
                endpoint,
                status,
                length,
                ..
            } => write_periodic(*endpoint, *status, *length, writer, out),
        }
    }
}

/// The fields of a bulk packet, with the upper 16 bits of its length where `more`.
fn write_bulk<W: FieldWriter>(
    more: bool,
    endpoint: u8,
    status: u8,
    length: u32,
    stream: u32,
    writer: &W,
    out: &mut Bytes,
) -> Result<(), Memory>
    ensures { AppendsSome result out.old out.new (flat_map W.text (bulk more endpoint status length stream)) }
{
    writer.bytes(&[endpoint, status], out)?;
    writer.lower(length, out)?;
    writer.longs(&[stream], out)?;
    if more {
        writer.upper(length, out)?;
    }
    Ok(())
}

/// The fields of an isochronous or interrupt packet.
pub(crate) fn write_periodic<W: FieldWriter>(
    endpoint: u8,
    status: u8,
    length: u16,
    writer: &W,
    out: &mut Bytes,
) -> Result<(), Memory>
    ensures { AppendsSome result out.old out.new (flat_map W.text (periodic endpoint status length)) }
{
    writer.bytes(&[endpoint, status], out)?;
    writer.shorts(&[length], out)?;
    Ok(())
}

/// Whether packets of this endpoint carry data this way: to the host those of OUT endpoints, to the guest those of
/// IN endpoints.
fn carries(way: Way, endpoint: u8) -> bool
    ensures { result ≡ carries way endpoint }
{
    match way {
        Way::ToHost => !is_in_endpoint(endpoint),
        Way::ToGuest => is_in_endpoint(endpoint),
    }
}

/// How many bytes of data stand in a packet of this endpoint that tells this length.
pub(crate) fn data_count(way: Way, endpoint: u8, told: u32) -> u32
    ensures { result ≡ data_count way endpoint told }
{
    if carries(way, endpoint) { told } else { 0 }
}
