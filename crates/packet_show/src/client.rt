//! The line of a list or import request.

ghost use Rattle.std.specs.Prelude.{◌++◌};
ghost use Rattle.usb_base.specs.Writes.{Appends, AppendsSome};
ghost use Rattle.usbip_op.specs.declared.packet.OpPacket.TheVariants.{ReqDevlist, ReqImport};
ghost use Rattle.packet_show.specs.Line.{decimal, spaced_words};
ghost use Rattle.packet_show.specs.Client.{client_line, client_words};

use crate::line::{end_line, push_begin, push_bytes, push_number};
use std::alloc::Global;
use usb_base::{Bytes, Memory};
use usbip_op::{BUS_ID_SIZE, OpRequest};

/// Appends the line of a request, whose first byte stands at `place` of its stream. For want of memory `out`
/// stands.
pub fn show_client(
    alloc: Global,
    place: u64,
    request: &OpRequest,
    out: &mut Bytes,
) -> Result<(), Memory>
    ensures { Appends result out.old out.new (client_line place request.now) }
{
    let status = request.status();
    match request.busid() {
        None => show_devlist(place, status, out),
        Some(busid) => show_import(alloc, place, status, &busid, out),
    }
}

/// Appends the line of a list request, as `show_client` does.
pub fn show_devlist(place: u64, status: u32, out: &mut Bytes) -> Result<(), Memory>
    ensures { Appends result out.old out.new (client_line place (ReqDevlist status)) }
{
    let from = out.len();
    let begun = push_devlist(place, status, out);
    end_line(begun, from, out)
}

/// Appends the line of an import request, as `show_client` does.
pub fn show_import(
    alloc: Global,
    place: u64,
    status: u32,
    busid: &[u8; BUS_ID_SIZE],
    out: &mut Bytes,
) -> Result<(), Memory>
    ensures { Appends result out.old out.new (client_line place (ReqImport status busid.now)) }
{
    let from = out.len();
    let begun = push_import(alloc, place, status, busid, out);
    end_line(begun, from, out)
}

fn push_devlist(place: u64, status: u32, out: &mut Bytes) -> Result<(), Memory>
    ensures { AppendsSome result out.old out.new (decimal place ++ spaced_words (client_words (ReqDevlist status))) }
{
    push_begin(place, "REQ_DEVLIST", out)?;
    push_number(status, out)?;
    Ok(())
}

fn push_import(
    alloc: Global,
    place: u64,
    status: u32,
    busid: &[u8; BUS_ID_SIZE],
    out: &mut Bytes,
) -> Result<(), Memory>
    ensures { AppendsSome result out.old out.new (decimal place ++ spaced_words (client_words (ReqImport status busid.now))) }
{
    push_begin(place, "REQ_IMPORT", out)?;
    push_number(status, out)?;
    push_bytes(alloc, busid, out)?;
    Ok(())
}
