//! Packets written: whether one that was read is written again as the bytes that it was read from, and packets that no
//! reader gives.

ghost use Rattle.usbip_op.specs.Ranges.{IsWritable as IsWritableOp};
ghost use Rattle.usbip_urb.specs.Ranges.{IsRequest, IsAnswer, IsWritable as IsWritableUrb};
ghost use Rattle.redir_wire.specs.Written.{CanWrite as CanWriteControl};
ghost use Rattle.redir_data.specs.Written.{CanWrite as CanWriteData};
ghost use Rattle.packet_vectors.specs.Writable.{CanWrite};

use crate::output::Output;
use crate::reader::{Setting, is_in};
use packet_stream::Read;
use redir_data::{RedirData, RedirPacket, write_data, write_iso_out};
use redir_wire::{Caps, RedirControl, Way, write_control};
use usb_base::{Bytes, Memory};
use usbip_op::{OpPacket, write_op};
use usbip_urb::{RetSubmit, UrbPacket, push_desc, push_ret_fields, read_ret, read_urb, write_urb};

/// What stands in front of each packet that is written, and has to stand there still behind it.
const FRONT: u8 = 7;

/// What a packet is written behind.
fn started(out: &mut Output) -> Bytes {
    let mut again = Bytes::new(out.alloc);
    out.note(again.push(FRONT));
    again
}

/// Appends a line where other bytes were written behind what stands in front.
fn push_if_other(written: Result<(), Memory>, again: &Bytes, bytes: &[u8], out: &mut Output) {
    out.note(written);
    match again.as_slice() {
        [FRONT, rest @ ..] if rest == bytes => {}
        other => {
            out.text("written ");
            push_hex_line(other, out);
        }
    }
}

fn push_hex_line(bytes: &[u8], out: &mut Output) {
    out.hex(bytes);
    out.text("\n");
}

/// Appends a line where a list or import packet is written as other bytes than these.
pub fn push_op_again(packet: &OpPacket, bytes: &[u8], out: &mut Output)
    requires { IsWritableOp packet.now }
{
    let mut again = started(out);
    let written = write_op(packet, &mut again);
    push_if_other(written, &again, bytes, out);
}

/// Appends a line where a URB request is written as other bytes than these.
pub fn push_urb_again(packet: &UrbPacket, bytes: &[u8], out: &mut Output)
    requires { IsRequest packet.now }
{
    let mut again = started(out);
    let written = write_urb(packet, &mut again);
    push_if_other(written, &again, bytes, out);
}

/// Appends a line where a URB answer is written as other bytes than these.
pub fn push_ret_again(is_in: bool, packet: &UrbPacket, bytes: &[u8], out: &mut Output)
    requires { IsAnswer is_in packet.now }
{
    let mut again = started(out);
    let written = write_urb(packet, &mut again);
    push_if_other(written, &again, bytes, out);
}

/// Appends a line where a usbredir packet is written as other bytes than these.
pub fn push_redir_again(
    setting: Setting,
    id: u64,
    packet: &RedirPacket,
    bytes: &[u8],
    out: &mut Output,
)
    requires { CanWrite id setting.way setting.state.caps packet.now }
{
    let Setting { state, way } = setting;
    let caps = state.caps;
    match packet {
        RedirPacket::Plain(control) => push_control_again(control, id, caps, bytes, out),
        RedirPacket::Carrying(moved) => push_moved_again(moved, id, way, caps, bytes, out),
    }
}

fn push_control_again(control: &RedirControl, id: u64, caps: Caps, bytes: &[u8], out: &mut Output)
    requires { CanWriteControl id caps control.now }
{
    let mut again = started(out);
    let written = write_control(control, id, caps, &mut again);
    push_if_other(written, &again, bytes, out);
}

fn push_moved_again(
    moved: &RedirData,
    id: u64,
    way: Way,
    caps: Caps,
    bytes: &[u8],
    out: &mut Output,
)
    requires { CanWriteData id way caps moved.now }
{
    let mut again = started(out);
    let written = write_data(moved, id, way, caps, &mut again);
    push_if_other(written, &again, bytes, out);
}

/// Appends the submit at the front of the bytes as it is written to another device.
pub fn push_to_device(number: &str, bytes: &[u8], out: &mut Output) {
    match read_urb(out.alloc, bytes) {
        Ok(Read::Whole(UrbPacket::Submit(submit), _)) => {
            let mut submit = submit;
            submit.head.devid = out.read(number.parse());
            push_written(&UrbPacket::Submit(submit), out);
        }
        _ => out.refuse(),
    }
}

/// Appends the bytes of a request to any device.
fn push_written(packet: &UrbPacket, out: &mut Output)
    requires { IsWritableUrb packet.now }
{
    let mut written = Bytes::new(out.alloc);
    out.note(write_urb(packet, &mut written));
    push_hex_line(written.as_slice(), out);
}

/// Appends the answer at the front of the bytes as it is written around its body: its fields, the body, and then each
/// descriptor.
pub fn push_around_body(direction: &str, bytes: &[u8], out: &mut Output) {
    match read_ret(out.alloc, is_in(direction, out), bytes) {
        Ok(Read::Whole(UrbPacket::RetSubmit(answer), _)) => push_parts(&answer, out),
        _ => out.refuse(),
    }
}

fn push_parts(answer: &RetSubmit, out: &mut Output) {
    let mut written = Bytes::new(out.alloc);
    out.note(push_ret_fields(answer, &mut written));
    out.note(written.append(answer.body.as_slice()));
    for desc in answer.descs.as_slice() {
        out.note(push_desc(desc, &mut written));
    }
    push_hex_line(written.as_slice(), out);
}

/// Appends an isochronous packet to the device with these data, as it is written behind what stands in front.
pub fn push_iso_out(endpoint: u8, id: u64, caps: Caps, body: &[u8], out: &mut Output) {
    if body.len() > usize::from(u16::MAX)
        || !caps.contains(Caps::WIDE_IDS) && id > u64::from(u32::MAX)
    {
        return out.refuse();
    }
    let mut written = started(out);
    out.note(write_iso_out(endpoint, body, id, caps, &mut written));
    push_hex_line(written.as_slice(), out);
}
