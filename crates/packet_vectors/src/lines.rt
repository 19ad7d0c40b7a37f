//! The lines of packets. Those that a gateway is sent have theirs in `packet_show`, and the answers of a USB/IP server
//! have theirs here.

use crate::output::Output;
use crate::replies::{push_device, push_devices, push_ret_submit, push_ret_unlink};
use packet_show::{show_client, show_devlist, show_import, show_redir, show_submit, show_unlink};
use redir_data::RedirPacket;
use redir_wire::Header;
use usbip_op::{OpPacket, OpRequest};
use usbip_urb::{Submit, Unlink, UrbCommand, UrbPacket, UrbRequest};

/// Appends the line of a list or import packet.
pub fn push_op(place: u64, packet: &OpPacket, out: &mut Output) {
    match packet {
        OpPacket::ReqDevlist { status } => {
            let shown = show_devlist(place, *status, &mut out.bytes);
            out.note(shown);
        }
        OpPacket::ReqImport { status, busid } => {
            let shown = show_import(out.alloc, place, *status, busid, &mut out.bytes);
            out.note(shown);
        }
        OpPacket::RepDevlist { status, devices } => {
            push_begin(place, " REP_DEVLIST", &[i64::from(*status)], out);
            push_devices(devices, out);
        }
        OpPacket::RepImport { status, device } => {
            push_begin(place, " REP_IMPORT", &[i64::from(*status)], out);
            if let Some(device) = device {
                push_device(device, out);
            }
            out.text("\n");
        }
    }
}

/// Appends the place, a name with a space in front, and numbers behind it.
pub fn push_begin(place: u64, name: &str, numbers: &[i64], out: &mut Output) {
    out.number("", place, name);
    out.numbers(numbers);
}

/// Appends the line of a client's list or import request.
pub fn push_op_request(place: u64, request: &OpRequest, out: &mut Output) {
    let shown = show_client(out.alloc, place, request, &mut out.bytes);
    out.note(shown);
}

/// Appends the line of a URB packet.
pub fn push_urb(place: u64, packet: &UrbPacket, out: &mut Output) {
    match packet {
        UrbPacket::Submit(submit) => push_submit(place, submit, out),
        UrbPacket::Unlink(unlink) => push_unlink(place, unlink, out),
        UrbPacket::RetSubmit(answer) => push_ret_submit(place, answer, out),
        UrbPacket::RetUnlink(answer) => push_ret_unlink(place, answer, out),
    }
}

/// Appends the line of a client's URB request.
pub fn push_urb_request(place: u64, request: &UrbRequest, out: &mut Output) {
    match request.command() {
        UrbCommand::Submit(submit) => push_submit(place, submit, out),
        UrbCommand::Unlink(unlink) => push_unlink(place, unlink, out),
    }
}

fn push_submit(place: u64, submit: &Submit, out: &mut Output) {
    let shown = show_submit(out.alloc, place, submit, &mut out.bytes);
    out.note(shown);
}

fn push_unlink(place: u64, unlink: &Unlink, out: &mut Output) {
    let shown = show_unlink(out.alloc, place, unlink, &mut out.bytes);
    out.note(shown);
}

/// Appends the line of a usbredir packet.
pub fn push_redir(place: u64, head: &Header, packet: &RedirPacket, out: &mut Output) {
    let shown = show_redir(out.alloc, place, head, packet, &mut out.bytes);
    out.note(shown);
}
