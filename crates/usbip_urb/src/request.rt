//! Requests read.

ghost use Rattle.std.specs.Prelude.{◌≡◌, ◌++◌, ◌≤◌, ℕ, None, List, length};
ghost use Rattle.std.specs.Int.{w32};
ghost use Rattle.usb_base.specs.Number.{be_at};
ghost use Rattle.packet_stream.specs.Format.{IsSound, StandsAtFront, reading, reading_by, Whole as FoundWhole};
ghost use Rattle.packet_stream.specs.Reads.{Answers, IfTold, bytes_left};
ghost use Rattle.usbip_urb.specs.declared.packet.UrbPacket.{UrbPacket as Packet};
ghost use Rattle.usbip_urb.specs.declared.code.TheConstants.{HEAD_SIZE, USBIP_CMD_SUBMIT};
ghost use Rattle.usbip_urb.specs.Spelling.{spelling};
ghost use Rattle.usbip_urb.specs.Ranges.{IsRequest};
ghost use Rattle.usbip_urb.specs.Fields.{submit_with};
ghost use Rattle.usbip_urb.specs.Requests.{requests};
ghost use Rattle.usbip_urb.specs.Heap.{takes_memory};

use crate::check::wrong_request;
use crate::code::{HEAD_SIZE, USBIP_CMD_SUBMIT, USBIP_DIR_OUT};
use crate::command::UrbRequest;
use crate::field::{head_at, unlink_at};
use crate::packet::{Descs, Submit, UrbError, UrbRead};
use crate::payload::{descs_place, descs_size, read_descs};
use packet_stream::Read;
use std::alloc::Global;
use usb_base::{Bytes, PacketBytes, array_at, be_u32_at};

/// A law: what is read as a request is spelled so, and what is spelled so is read.
pub fn requests_sound()
    ensures { IsSound requests }
{}

/// A law: the bytes of a request are read as that request again, whatever comes after them.
pub fn read_urb_again()
    ensures { (p : Packet) (more : List ℕ) → IsRequest p → reading requests (spelling p ++ more) ≡ FoundWhole p (length (spelling p)) }
{}

/// Reads the request at the front of the bytes: a submit or an unlink. Bytes after it don't matter. It is refused
/// as soon as the bytes of a wrong field are there, in this order: `Version` at place 0 (two bytes), `Command` at
/// 0, `Device` at 8, `Direction` at 12, `Endpoint` at 16, and in a submit `TooLong` at 24 and `Packets` at 32. A
/// packet that isn't whole costs its first 48 bytes at most. Memory is wanting only for a body or descriptors.
pub fn read_urb(alloc: Global, bytes: &[u8]) -> Result<UrbRead, UrbError>
    ensures stands { IfTold result (StandsAtFront requests bytes.now) }
    ensures exact { Answers takes_memory result (reading requests bytes.now) }
{
    let mut bytes = bytes;
    match take_urb(alloc, &mut bytes)? {
        Read::Whole(request, size) => Ok(UrbRead::Whole(request.into_packet(), size)),
        Read::Short => Ok(UrbRead::Short),
    }
}

/// Takes the request at the front of the bytes off them.
pub fn take_urb<B: PacketBytes>(alloc: Global, bytes: &mut B) -> Result<Read<UrbRequest>, UrbError>
    ensures exact { Answers takes_memory result (reading requests (B.contents bytes.old)) }
    ensures left { B.contents bytes.new ≡ bytes_left result (B.contents bytes.old) }
{
    let front = bytes.as_slice();
    if let Some((place, reason)) = wrong_request(front) {
        return Err(UrbError::Refused { place, reason });
    }
    if front.len() < HEAD_SIZE {
        return Ok(Read::Short);
    }
    if be_u32_at(front, 0) == USBIP_CMD_SUBMIT {
        return take_submit(alloc, bytes);
    }
    let unlink = unlink_at(front);
    bytes.advance(HEAD_SIZE);
    Ok(Read::Whole(UrbRequest::unlink(unlink), HEAD_SIZE))
}

fn take_submit<B: PacketBytes>(alloc: Global, bytes: &mut B) -> Result<Read<UrbRequest>, UrbError>
    requires submit { be_at w32 0 (B.contents bytes.old) ≡ USBIP_CMD_SUBMIT }
    requires head { HEAD_SIZE ≤ length (B.contents bytes.old) }
    ensures exact { Answers takes_memory result (reading_by requests (B.contents bytes.old) None) }
    ensures left { B.contents bytes.new ≡ bytes_left result (B.contents bytes.old) }
{
    let front = bytes.as_slice();
    let place = descs_place(be_u32_at(front, 12) == USBIP_DIR_OUT, front);
    let size = place + descs_size(front);
    if front.len() < size {
        return Ok(Read::Short);
    }
    let descs = read_descs(alloc, &front[place..size])?;
    let mut submit = submit_with(front, Bytes::new(alloc), descs);
    submit.body = bytes.take_part(alloc, HEAD_SIZE, place - HEAD_SIZE, size)?;
    Ok(Read::Whole(UrbRequest::submit(submit), size))
}

fn submit_with(bytes: &[u8], body: Bytes, descs: Descs) -> Submit
    requires { HEAD_SIZE ≤ length bytes.now }
    ensures { result ≡ submit_with bytes.now body descs }
{
    Submit {
        head: head_at(bytes),
        flags: be_u32_at(bytes, 20),
        length: be_u32_at(bytes, 24),
        start_frame: be_u32_at(bytes, 28),
        packets: be_u32_at(bytes, 32),
        interval: be_u32_at(bytes, 36),
        setup: array_at(bytes, 40),
        body,
        descs,
    }
}
