//! Answers read.

ghost use Rattle.std.specs.Prelude.{◌≡◌, ◌++◌, ◌≤◌, ℕ, Bool, None, List, length};
ghost use Rattle.std.specs.Int.{w32};
ghost use Rattle.usb_base.specs.Number.{be_at};
ghost use Rattle.packet_stream.specs.Format.{IsSound, StandsAtFront, reading, reading_by, Whole as FoundWhole};
ghost use Rattle.packet_stream.specs.Reads.{Answers, IfTold};
ghost use Rattle.usbip_urb.specs.declared.packet.UrbPacket.{UrbPacket as Packet};
ghost use Rattle.usbip_urb.specs.declared.code.TheConstants.{HEAD_SIZE, USBIP_RET_SUBMIT};
ghost use Rattle.usbip_urb.specs.Spelling.{spelling};
ghost use Rattle.usbip_urb.specs.Ranges.{IsAnswer};
ghost use Rattle.usbip_urb.specs.Answers.{answers, seqnum_of};
ghost use Rattle.usbip_urb.specs.Heap.{takes_memory};

use crate::check::wrong_answer;
use crate::code::{HEAD_SIZE, USBIP_RET_SUBMIT};
use crate::field::{head_at, ret_unlink_at};
use crate::packet::{RetSubmit, UrbError, UrbPacket, UrbRead};
use crate::payload::{descs_place, descs_size, read_descs};
use std::alloc::Global;
use usb_base::{Bytes, array_at, be_u32_at};

/// A law: what is read as an answer is spelled so, and what is spelled so is read.
pub fn answers_sound()
    ensures { (is_in : Bool) → IsSound (answers is_in) }
{}

/// A law: the bytes of an answer are read as that answer again, whatever comes after them.
pub fn read_ret_again()
    ensures { (is_in : Bool) (p : Packet) (more : List ℕ) → IsAnswer is_in p → reading (answers is_in) (spelling p ++ more) ≡ FoundWhole p (length (spelling p)) }
{}

/// The number of the request that is answered, which tells whether it was IN. None for fewer than 8 bytes.
pub fn ret_seqnum(bytes: &[u8]) -> Option<u32>
    ensures { result ≡ seqnum_of bytes.now }
{
    if bytes.len() < 8 {
        return None;
    }
    Some(be_u32_at(bytes, 4))
}

/// Reads the answer at the front of the bytes, where `is_in` says whether the request was IN: only then a submit's
/// answer has a body. Bytes after it don't matter. It is refused as soon as the bytes of a wrong field are there:
/// `Command` at place 0, and in a submit's answer `TooLong` at 24 and `Packets` at 32. A packet that isn't whole
/// costs its first 48 bytes at most. Memory is wanting only for a body or descriptors.
pub fn read_ret(alloc: Global, is_in: bool, bytes: &[u8]) -> Result<UrbRead, UrbError>
    ensures stands { IfTold result (StandsAtFront (answers is_in) bytes.now) }
    ensures exact { Answers takes_memory result (reading (answers is_in) bytes.now) }
{
    if let Some((place, reason)) = wrong_answer(bytes) {
        return Err(UrbError::Refused { place, reason });
    }
    if bytes.len() < HEAD_SIZE {
        return Ok(UrbRead::Short);
    }
    if be_u32_at(bytes, 0) == USBIP_RET_SUBMIT {
        return read_ret_submit(alloc, is_in, bytes);
    }
    let answer = ret_unlink_at(bytes);
    Ok(UrbRead::Whole(UrbPacket::RetUnlink(answer), HEAD_SIZE))
}

fn read_ret_submit(alloc: Global, is_in: bool, bytes: &[u8]) -> Result<UrbRead, UrbError>
    requires submit { be_at w32 0 bytes.now ≡ USBIP_RET_SUBMIT }
    requires head { HEAD_SIZE ≤ length bytes.now }
    ensures { Answers takes_memory result (reading_by (answers is_in) bytes.now None) }
{
    let place = descs_place(is_in, bytes);
    let size = place + descs_size(bytes);
    if bytes.len() < size {
        return Ok(UrbRead::Short);
    }
    let body = Bytes::copied(alloc, &bytes[HEAD_SIZE..place])?;
    let descs = read_descs(alloc, &bytes[place..size])?;
    let answer = RetSubmit {
        head: head_at(bytes),
        status: be_u32_at(bytes, 20).cast_signed(),
        actual: be_u32_at(bytes, 24),
        start_frame: be_u32_at(bytes, 28),
        packets: be_u32_at(bytes, 32),
        errors: be_u32_at(bytes, 36),
        tail: array_at(bytes, 40),
        body,
        descs,
    };
    Ok(UrbRead::Whole(UrbPacket::RetSubmit(answer), size))
}
