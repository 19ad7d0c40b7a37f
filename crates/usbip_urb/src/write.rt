//! Packets written.

ghost use Rattle.std.specs.Prelude.{◌≡◌, ◌+◌, ◌*◌, ◌++◌, ◌∷◌, length};
ghost use Rattle.usb_base.specs.Writes.{Appends, AppendsSome};
ghost use Rattle.usbip_urb.specs.declared.packet.UrbPacket.TheVariants.{Submit as SubmitPacket, RetSubmit as RetSubmitPacket, Unlink as UnlinkPacket, RetUnlink as RetUnlinkPacket};
ghost use Rattle.usbip_urb.specs.Spelling.{spelling, words, ret_submit_words, desc_words, descs_bytes};
ghost use Rattle.usbip_urb.specs.Ranges.{IsWritable};
ghost use Rattle.usbip_urb.specs.declared.code.TheConstants.{HEAD_SIZE};

use crate::code::{
    DESC_SIZE, HEAD_SIZE, USBIP_CMD_SUBMIT, USBIP_CMD_UNLINK, USBIP_RET_SUBMIT, USBIP_RET_UNLINK,
};
use crate::packet::{Head, IsoDesc, RetSubmit, RetUnlink, Submit, Unlink, UrbPacket};
use byteorder::{BigEndian, ByteOrder};
use usb_base::{Bytes, Memory};

/// Appends a packet. For want of memory the bytes stay as they were.
pub fn write_urb(packet: &UrbPacket, out: &mut Bytes) -> Result<(), Memory>
    requires { IsWritable packet.now }
    ensures { Appends result out.old out.new (spelling packet.now) }
{
    let before = out.len();
    let pushed = push_packet(packet, out);
    out.cut_on_err(before, pushed)
}

/// Appends the answer of a submit, whose body is moved: a long one is not copied where `out` has little else. For want
/// of memory the bytes stay as they were.
pub fn write_ret_submit(answer: RetSubmit, out: &mut Bytes) -> Result<(), Memory>
    requires { IsWritable (RetSubmitPacket answer) }
    ensures { Appends result out.old out.new (spelling (RetSubmitPacket answer)) }
{
    let before = out.len();
    let pushed = move_ret_submit(answer, out);
    out.cut_on_err(before, pushed)
}

fn move_ret_submit(answer: RetSubmit, out: &mut Bytes) -> Result<(), Memory>
    ensures { AppendsSome result out.old out.new (spelling (RetSubmitPacket answer)) }
{
    push_ret_fields(&answer, out)?;
    let RetSubmit { body, descs, .. } = answer;
    if !body.is_empty() {
        out.append_list(body)?;
    }
    push_descs(descs.as_slice(), out)?;
    Ok(())
}

fn push_packet(packet: &UrbPacket, out: &mut Bytes) -> Result<(), Memory>
    ensures { AppendsSome result out.old out.new (spelling packet.now) }
{
    match packet {
        UrbPacket::Submit(submit) => push_submit(submit, out),
        UrbPacket::RetSubmit(answer) => push_ret_submit(answer, out),
        UrbPacket::Unlink(unlink) => push_unlink(unlink, out),
        UrbPacket::RetUnlink(answer) => push_ret_unlink(answer, out),
    }
}

fn push_submit(submit: &Submit, out: &mut Bytes) -> Result<(), Memory>
    ensures { AppendsSome result out.old out.new (spelling (SubmitPacket submit.now)) }
{
    push_head(
        USBIP_CMD_SUBMIT,
        &submit.head,
        &[
            submit.flags,
            submit.length,
            submit.start_frame,
            submit.packets,
            submit.interval,
        ],
        &submit.setup,
        out,
    )?;
    out.append(submit.body.as_slice())?;
    push_descs(submit.descs.as_slice(), out)?;
    Ok(())
}

fn push_ret_submit(answer: &RetSubmit, out: &mut Bytes) -> Result<(), Memory>
    ensures { AppendsSome result out.old out.new (spelling (RetSubmitPacket answer.now)) }
{
    push_ret_fields(answer, out)?;
    out.append(answer.body.as_slice())?;
    push_descs(answer.descs.as_slice(), out)?;
    Ok(())
}

/// Appends the fields of a submit's answer in front of its body, 48 bytes, for a body and descriptors that are
/// elsewhere; those of the answer don't matter. For want of memory some of the bytes may be there, which the caller
/// cuts off.
pub fn push_ret_fields(answer: &RetSubmit, out: &mut Bytes) -> Result<(), Memory>
    ensures { AppendsSome result out.old out.new (words (ret_submit_words answer.now) ++ answer.now.tail) }
{
    push_head(
        USBIP_RET_SUBMIT,
        &answer.head,
        &[
            answer.status.cast_unsigned(),
            answer.actual,
            answer.start_frame,
            answer.packets,
            answer.errors,
        ],
        &answer.tail,
        out,
    )
}

fn push_unlink(unlink: &Unlink, out: &mut Bytes) -> Result<(), Memory>
    ensures { AppendsSome result out.old out.new (spelling (UnlinkPacket unlink.now)) }
{
    push_head(
        USBIP_CMD_UNLINK,
        &unlink.head,
        &[unlink.target],
        &unlink.pad,
        out,
    )
}

fn push_ret_unlink(answer: &RetUnlink, out: &mut Bytes) -> Result<(), Memory>
    ensures { AppendsSome result out.old out.new (spelling (RetUnlinkPacket answer.now)) }
{
    push_head(
        USBIP_RET_UNLINK,
        &answer.head,
        &[answer.status.cast_unsigned()],
        &answer.pad,
        out,
    )
}

/// The 48 bytes that a packet begins with, in one append: its code, its head, these fields, and what stands behind
/// them.
#[tactic(auto, unfolding(usb_base::specs::Number::be))]
fn push_head(
    code: u32,
    head: &Head,
    fields: &[u32],
    rest: &[u8],
    out: &mut Bytes,
) -> Result<(), Memory>
    requires { 20 + 4 * length fields.now + length rest.now ≡ HEAD_SIZE }
    ensures { Appends result out.old out.new (words (code ∷ head.now.seqnum ∷ head.now.devid ∷ head.now.direction ∷ head.now.ep ∷ fields.now) ++ rest.now) }
{
    let mut start = [0; HEAD_SIZE];
    let (front, behind) = start.split_at_mut(20);
    let numbers = [code, head.seqnum, head.devid, head.direction, head.ep];
    BigEndian::write_u32_into(&numbers, front);
    let (middle, end) = behind.split_at_mut(4 * fields.len());
    BigEndian::write_u32_into(fields, middle);
    end.copy_from_slice(rest);
    out.append(&start)
}

/// Appends descriptors; room for all of them is made before the first comes.
fn push_descs(descs: &[IsoDesc], out: &mut Bytes) -> Result<(), Memory>
    ensures { AppendsSome result out.old out.new (descs_bytes descs.now) }
{
    out.reserve(descs.len() * DESC_SIZE)?;
    for desc in descs {
        push_desc(desc, out)?;
    }
    Ok(())
}

/// Appends a descriptor, 16 bytes. For want of memory some of them may be there, which the caller cuts off.
#[tactic(auto, unfolding(usb_base::specs::Number::be))]
pub fn push_desc(desc: &IsoDesc, out: &mut Bytes) -> Result<(), Memory>
    ensures { AppendsSome result out.old out.new (words (desc_words desc.now)) }
{
    let mut bytes = [0; DESC_SIZE];
    let numbers = [
        desc.offset,
        desc.length,
        desc.actual,
        desc.status.cast_unsigned(),
    ];
    BigEndian::write_u32_into(&numbers, &mut bytes);
    out.append(&bytes)
}
