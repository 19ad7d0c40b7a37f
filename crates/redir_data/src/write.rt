//! Writes packets that move data.

ghost use Rattle.std.specs.Prelude.{◌≡◌, ◌++◌, ◌≤◌, length, OnOk, OnErr};
ghost use Rattle.usb_base.specs.Writes.{AppendsSome};
ghost use Rattle.redir_wire.specs.State.{wide_ids};
ghost use Rattle.redir_wire.specs.Header.{head_bytes, IdFits};
ghost use Rattle.redir_wire.specs.declared.header.TheConstants.{MAX_LENGTH};
ghost use Rattle.redir_data.specs.Spelling.{size_of, header_of, fixed_fields};
ghost use Rattle.redir_data.specs.Written.{CanWrite, packet_bytes};
ghost use Rattle.redir_data.specs.declared.packet.RedirData.TheVariants.{Iso};

use crate::data::write_periodic;
use crate::packet::RedirData;
use redir_wire::{Caps, DataKind, Header, Way, Wire, push_header};
use usb_base::{Bytes, Memory};

/// Appends a packet with this id, in its form with these capabilities; its data agree with its length this way. For
/// want of memory `out` stands.
pub fn write_data(
    packet: &RedirData,
    id: u64,
    way: Way,
    caps: Caps,
    out: &mut Bytes,
) -> Result<(), Memory>
    requires { CanWrite id way caps packet.now }
    ensures ok { OnOk result (out.new ≡ out.old ++ packet_bytes id caps packet.now) }
    ensures err { OnErr result (out.new ≡ out.old) }
{
    let agrees = packet.has_its_data(way);
    prove!(agrees);
    let before = out.len();
    let pushed = push_data(packet, id, caps, out);
    out.cut_on_err(before, pushed)
}

/// As `write_data`, of a packet whose data are moved: long ones are not copied where `out` has little else.
pub fn move_data(
    packet: RedirData,
    id: u64,
    way: Way,
    caps: Caps,
    out: &mut Bytes,
) -> Result<(), Memory>
    requires { CanWrite id way caps packet }
    ensures ok { OnOk result (out.new ≡ out.old ++ packet_bytes id caps packet) }
    ensures err { OnErr result (out.new ≡ out.old) }
{
    let agrees = packet.has_its_data(way);
    prove!(agrees);
    let before = out.len();
    let pushed = push_moved(packet, id, caps, out);
    out.cut_on_err(before, pushed)
}

/// Appends an isochronous packet to the device, whose data are lent, with this id. For want of memory `out` stands.
pub fn write_iso_out(
    endpoint: u8,
    body: &[u8],
    id: u64,
    caps: Caps,
    out: &mut Bytes,
) -> Result<(), Memory>
    requires few { length body.now ≤ u16.MAX }
    requires id_fits { IdFits (wide_ids caps) id }
    ensures ok { OnOk result (out.new ≡ out.old ++ packet_bytes id caps (Iso endpoint 0 (length body.now) body.now)) }
    ensures err { OnErr result (out.new ≡ out.old) }
{
    let before = out.len();
    let pushed = push_iso_out(endpoint, body, id, caps, out);
    out.cut_on_err(before, pushed)
}

fn push_iso_out(
    endpoint: u8,
    body: &[u8],
    id: u64,
    caps: Caps,
    out: &mut Bytes,
) -> Result<(), Memory>
    requires few { length body.now ≤ u16.MAX }
    requires id_fits { IdFits (wide_ids caps) id }
    ensures { AppendsSome result out.old out.new (packet_bytes id caps (Iso endpoint 0 (length body.now) body.now)) }
{
    let row = DataKind::Iso.row();
    let header = Header {
        kind: row.number,
        length: row.fixed(caps) + body.len() as u32,
        id,
    };
    push_header(caps.contains(Caps::WIDE_IDS), &header, out)?;
    write_periodic(endpoint, 0, body.len() as u16, &Wire, out)?;
    out.append(body)?;
    Ok(())
}

fn push_data(packet: &RedirData, id: u64, caps: Caps, out: &mut Bytes) -> Result<(), Memory>
    requires id_fits { IdFits (wide_ids caps) id }
    requires in_limit { size_of caps packet.now ≤ MAX_LENGTH }
    ensures { AppendsSome result out.old out.new (packet_bytes id caps packet.now) }
{
    push_head(packet, id, caps, out)?;
    out.append(packet.body().as_slice())?;
    Ok(())
}

fn push_moved(packet: RedirData, id: u64, caps: Caps, out: &mut Bytes) -> Result<(), Memory>
    requires id_fits { IdFits (wide_ids caps) id }
    requires in_limit { size_of caps packet ≤ MAX_LENGTH }
    ensures { AppendsSome result out.old out.new (packet_bytes id caps packet) }
{
    push_head(&packet, id, caps, out)?;
    let body = packet.into_body();
    if !body.is_empty() {
        out.append_list(body)?;
    }
    Ok(())
}

/// Appends what stands before the data: the header and the fixed fields.
fn push_head(packet: &RedirData, id: u64, caps: Caps, out: &mut Bytes) -> Result<(), Memory>
    requires id_fits { IdFits (wide_ids caps) id }
    requires in_limit { size_of caps packet.now ≤ MAX_LENGTH }
    ensures { AppendsSome result out.old out.new (head_bytes (wide_ids caps) (header_of id caps packet.now) ++ fixed_fields caps packet.now) }
{
    let row = packet.kind().row();
    let header = Header {
        kind: row.number,
        length: row.fixed(caps) + packet.body().len() as u32,
        id,
    };
    push_header(caps.contains(Caps::WIDE_IDS), &header, out)?;
    packet.write_fixed(row.has_more(caps), &Wire, out)?;
    Ok(())
}
