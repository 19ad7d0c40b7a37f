//! The answer of a request that the packets of its stream fill: its bytes go straight from those packets to the client.

ghost use Rattle.std.specs.Prelude.{◌≡◌, ◌++◌, ◌+◌, ◌≤◌, [], drop, IsTrue, length, IsSome, OnOk, OnErr, IfOk};
ghost use Rattle.usb_base.specs.Writes.{AppendsSome};
ghost use Rattle.usb_base.specs.declared.limits.TheConstants.{MAX_TRANSFER};
ghost use Rattle.usbip_urb.specs.Buffers.{laid};
ghost use Rattle.usbip_urb.specs.Spelling.{spelling};
ghost use Rattle.stream_buffers.specs.Iso.{iso_outcome};
ghost use Rattle.stream_buffers.specs.Fillings.{cut_by, FillsIso};
ghost use Rattle.gate_history.specs.host.Fillings.{Transferred, Isochronous};
ghost use Rattle.gate_history.specs.write.Answers.{with_given};
ghost use Rattle.gate_history.specs.write.Asked.{HasItsPackets};
ghost use Rattle.gate_parts.specs.state.Rows.{row_request};
ghost use Rattle.gate_parts.specs.host.Fill.{row_cut, cut_bytes, HasTaken};
ghost use Rattle.gate_parts.specs.host.FillAnswer.{front_bytes};

use crate::write::answer::ret_submit;
use crate::write::finish::asked_by;
use std::alloc::Global;
use stream_buffers::{Behind, Filling, IsoFilling, Up};
use unlink_race::Live;
use usb_base::{Bytes, Memory};
use usbip_urb::{Descs, push_ret_fields};

/// Appends the answer of a request that the packets of its stream behind the first `from` fill, and gives how many it
/// takes. None where they don't fill it; then, and for want of memory, nothing is appended. It takes memory only where
/// they fill it.
pub fn write_filling(
    alloc: Global,
    live: &Live,
    up: &mut Up,
    from: usize,
    out: &mut Bytes,
) -> Result<Option<usize>, Memory>
    requires from { from ≤ length up.old.held }
    requires packets { HasItsPackets live.now.packets live.now.descs }
    requires few_bytes { live.now.wanted ≤ MAX_TRANSFER }
    requires lies { IsTrue (laid live.now.descs live.now.wanted) }
    ensures same { up.new ≡ up.old }
    ensures taken { IfOk result (λ taken. HasTaken taken (drop from up.old.held) (row_cut up.old.row.max_packet live.now (drop from up.old.held))) }
    ensures sent { OnOk result (out.new ≡ out.old ++ cut_bytes live.now (row_cut up.old.row.max_packet live.now (drop from up.old.held))) }
    ensures err { OnErr result (out.new ≡ out.old) }
    ensures wants { OnErr result (IsSome (row_cut up.old.row.max_packet live.now (drop from up.old.held))) }
{
    let before = out.len();
    if live.descs.is_empty() {
        let Some(filling) = up.filling(from, live.wanted) else {
            return Ok(None);
        };
        let pushed = push_transferred(alloc, live, &up.behind(from), filling, out);
        out.cut_on_err(before, pushed)?;
        Ok(Some(filling.count))
    } else {
        let behind = up.behind(from);
        let Some(filling) = behind.iso_filling(&live.descs) else {
            return Ok(None);
        };
        let pushed = push_pieces(alloc, live, &behind, filling, out);
        out.cut_on_err(before, pushed)?;
        Ok(Some(live.descs.len()))
    }
}

/// Appends the answer of an interrupt request that these packets fill.
fn push_transferred(
    alloc: Global,
    live: &Live,
    behind: &Behind,
    filling: Filling,
    out: &mut Bytes,
) -> Result<(), Memory>
    requires there { filling.count ≤ length behind.now }
    requires none { live.now.descs ≡ [] }
    ensures { AppendsSome result out.old out.new (spelling (with_given (row_request live.now) (Transferred (cut_by behind.now filling).gives))) }
{
    push_front(alloc, live, filling.status.errno(), filling.done, 0, out)?;
    behind.append_bodies(filling, out)?;
    Ok(())
}

/// Appends the answer of an isochronous request that these packets fill, one for each descriptor.
fn push_pieces(
    alloc: Global,
    live: &Live,
    behind: &Behind,
    filling: IsoFilling,
    out: &mut Bytes,
) -> Result<(), Memory>
    requires fills { FillsIso live.now.descs behind.now filling }
    requires fits { filling.done ≤ MAX_TRANSFER }
    ensures { AppendsSome result out.old out.new (spelling (with_given (row_request live.now) (Isochronous (iso_outcome live.now.descs behind.now)))) }
{
    push_front(alloc, live, 0, filling.done as u32, filling.errors, out)?;
    behind.append_pieces(&live.descs, out)?;
    behind.append_filled(&live.descs, out)?;
    Ok(())
}

/// Appends the fields of a request's answer in front of the body.
fn push_front(
    alloc: Global,
    live: &Live,
    status: i32,
    actual: u32,
    errors: u32,
    out: &mut Bytes,
) -> Result<(), Memory>
    ensures { AppendsSome result out.old out.new (front_bytes (row_request live.now) status actual errors) }
{
    let asked = asked_by(live);
    let mut answer = ret_submit(&asked, status, actual, Bytes::new(alloc), Descs::new(alloc));
    answer.errors = errors;
    push_ret_fields(&answer, out)
}
