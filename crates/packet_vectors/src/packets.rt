//! A packet that is read: its line, and that it is written again as the bytes that it was read from.

use crate::lines::{push_op, push_op_request, push_redir, push_urb, push_urb_request};
use crate::output::Output;
use crate::reader::{Reader, Setting};
use crate::written::{push_op_again, push_redir_again, push_ret_again, push_urb_again};
use packet_stream::Read;
use redir_data::{control_writes_back, data_writes_back, read_redir};
use redir_wire::read_header;
use usbip_op::{OpWay, read_op};
use usbip_urb::{ClientPacket, read_client, read_ret, read_urb};

/// Appends the line of the packet at the front of the bytes, whose first stands at `place` of its stream, and a line
/// more where it isn't written again as it was read.
pub fn push_packet(reader: Reader, place: u64, bytes: &[u8], out: &mut Output) {
    match reader {
        Reader::Client => client_packet(place, bytes, out),
        Reader::Urb => urb_packet(place, bytes, out),
        Reader::Ret(is_in) => ret_packet(is_in, place, bytes, out),
        Reader::Request => op_packet(OpWay::Request, place, bytes, out),
        Reader::Op(way) => op_packet(way, place, bytes, out),
        Reader::Header(setting) => header(setting, bytes, out),
        Reader::Redir(setting) => redir_packet(setting, place, bytes, out),
    }
}

fn client_packet(place: u64, bytes: &[u8], out: &mut Output) {
    if let Ok(Read::Whole(packet, _)) = read_client(out.alloc, bytes) {
        push_client(place, &packet, out);
    }
}

/// Appends the line of what a client sent.
pub fn push_client(place: u64, packet: &ClientPacket, out: &mut Output) {
    match packet {
        ClientPacket::Op(request) => push_op_request(place, request, out),
        ClientPacket::Urb(request) => push_urb_request(place, request, out),
    }
}

fn urb_packet(place: u64, bytes: &[u8], out: &mut Output) {
    if let Ok(Read::Whole(packet, size)) = read_urb(out.alloc, bytes) {
        push_urb(place, &packet, out);
        push_urb_again(&packet, &bytes[..size], out);
    }
}

fn ret_packet(is_in: bool, place: u64, bytes: &[u8], out: &mut Output) {
    if let Ok(Read::Whole(packet, size)) = read_ret(out.alloc, is_in, bytes) {
        push_urb(place, &packet, out);
        push_ret_again(is_in, &packet, &bytes[..size], out);
    }
}

fn op_packet(way: OpWay, place: u64, bytes: &[u8], out: &mut Output) {
    if let Ok(Read::Whole(packet, size)) = read_op(out.alloc, way, bytes) {
        push_op(place, &packet, out);
        push_op_again(&packet, &bytes[..size], out);
    }
}

/// Appends the fields of a header.
fn header(setting: Setting, bytes: &[u8], out: &mut Output) {
    let Setting { state, way } = setting;
    if let Ok(Read::Whole(head, _)) = read_header(state, way, bytes) {
        out.number("HEADER ", u64::from(head.kind), " ");
        out.number("", u64::from(head.length), " ");
        out.number("", head.id, "\n");
    }
}

fn redir_packet(setting: Setting, place: u64, bytes: &[u8], out: &mut Output) {
    let Setting { state, way } = setting;
    control_writes_back();
    data_writes_back();
    if let Ok(Read::Whole(found, size)) = read_redir(out.alloc, state, way, bytes) {
        push_redir(place, &found.0, &found.1, out);
        push_redir_again(setting, found.0.id, &found.1, &bytes[..size], out);
    }
}
