//! The line of a submit or an unlink.

ghost use Rattle.std.specs.Prelude.{◌≡◌, ◌++◌, ◌∷◌, IfOk, map, string_bytes};
ghost use Rattle.usb_base.specs.Writes.{Appends, AppendsSome};
ghost use Rattle.usbip_urb.specs.declared.packet.UrbPacket.TheVariants.{Submit as SubmitPacket, Unlink as UnlinkPacket};
ghost use Rattle.packet_show.specs.Line.{decimal, numbers, spaced_words};
ghost use Rattle.packet_show.specs.Urb.{urb_line, submit_words, unlink_words, desc_word};

use crate::line::{end_line, push_begin, push_bytes, push_numbers, push_word};
use std::alloc::Global;
use usb_base::{Bytes, Memory};
use usbip_urb::{Head, IsoDesc, Submit, Unlink};

/// Appends the line of a submit, whose first byte stands at `place` of its stream. For want of memory `out` stands.
pub fn show_submit(
    alloc: Global,
    place: u64,
    submit: &Submit,
    out: &mut Bytes,
) -> Result<(), Memory>
    ensures { Appends result out.old out.new (urb_line place (SubmitPacket submit.now)) }
{
    let from = out.len();
    let begun = push_submit(alloc, place, submit, out);
    end_line(begun, from, out)
}

/// Appends the line of an unlink, as `show_submit` does.
pub fn show_unlink(
    alloc: Global,
    place: u64,
    unlink: &Unlink,
    out: &mut Bytes,
) -> Result<(), Memory>
    ensures { Appends result out.old out.new (urb_line place (UnlinkPacket unlink.now)) }
{
    let from = out.len();
    let begun = push_unlink(alloc, place, unlink, out);
    end_line(begun, from, out)
}

#[tactic(auto, using(crate::proofs::Words::spacing))]
fn push_submit(alloc: Global, place: u64, submit: &Submit, out: &mut Bytes) -> Result<(), Memory>
    ensures { AppendsSome result out.old out.new (decimal place ++ spaced_words (submit_words submit.now)) }
{
    let fields = [
        submit.flags,
        submit.length,
        submit.start_frame,
        submit.packets,
        submit.interval,
    ];
    push_head(place, "SUBMIT", &submit.head, &fields, out)?;
    push_bytes(alloc, &submit.setup, out)?;
    push_bytes(alloc, submit.body.as_slice(), out)?;
    push_descs(alloc, submit.descs.as_slice(), out)?;
    Ok(())
}

#[tactic(auto, using(crate::proofs::Words::spacing))]
fn push_unlink(alloc: Global, place: u64, unlink: &Unlink, out: &mut Bytes) -> Result<(), Memory>
    ensures { AppendsSome result out.old out.new (decimal place ++ spaced_words (unlink_words unlink.now)) }
{
    push_head(place, "UNLINK", &unlink.head, &[unlink.target], out)?;
    push_bytes(alloc, &unlink.pad, out)?;
    Ok(())
}

/// Appends what a request's line begins with: its place, its name, the numbers of its head, and those behind them.
fn push_head(
    place: u64,
    name: &str,
    head: &Head,
    fields: &[u32],
    out: &mut Bytes,
) -> Result<(), Memory>
    ensures { AppendsSome result out.old out.new (decimal place ++ spaced_words (name.now ∷ numbers (head.now.seqnum ∷ head.now.devid ∷ head.now.direction ∷ head.now.ep ∷ fields.now))) }
{
    push_begin(place, name, out)?;
    push_numbers(&[head.seqnum, head.devid, head.direction, head.ep], out)?;
    push_numbers(fields, out)?;
    Ok(())
}

#[tactic(auto, using(crate::proofs::Words::spacing))]
fn push_descs(alloc: Global, descs: &[IsoDesc], out: &mut Bytes) -> Result<(), Memory>
    ensures { AppendsSome result out.old out.new (spaced_words (map desc_word descs.now)) }
{
    for desc in descs {
        push_word(desc_text(alloc, desc)?.as_bytes(), out)?;
    }
    Ok(())
}

fn desc_text(alloc: Global, desc: &IsoDesc) -> Result<String, Memory>
    ensures { IfOk result (λ text. string_bytes text ≡ desc_word desc.now) }
{
    let offset = desc.offset;
    let length = desc.length;
    let actual = desc.actual;
    let status = desc.status;
    Ok(format!(in alloc; "{offset}:{length}:{actual}:{status}")?)
}
