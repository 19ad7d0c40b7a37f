//! Isochronous packets over their buffer, and the endpoints that an ep_info tells.

use crate::output::Output;
use crate::reader::caps_of;
use crate::usb_words::kind_name;
use packet_stream::Read;
use redir_data::{RedirPacket, read_redir};
use redir_wire::{Caps, RedirControl, RedirState, Way};
use usb_base::{EpAddr, EpRow};
use usbip_urb::{Descs, IsoDesc, laid, part, total};

/// The descriptors of words OFFSET:LENGTH or OFFSET:LENGTH:ACTUAL.
fn descs_of(words: &str, out: &mut Output) -> Descs {
    let mut descs = Descs::new(out.alloc);
    for word in words.split_whitespace() {
        let desc = desc_of(word, out);
        out.note(descs.push(desc));
    }
    descs
}

fn desc_of(word: &str, out: &mut Output) -> IsoDesc {
    let mut numbers = word.split(':');
    IsoDesc {
        offset: out.read(numbers.next().unwrap_or("").parse()),
        length: out.read(numbers.next().unwrap_or("").parse()),
        actual: out.read(numbers.next().unwrap_or("0").parse()),
        status: 0,
    }
}

/// Appends whether descriptors are laid in a buffer of this length.
pub fn push_laid(length: &str, words: &str, out: &mut Output) {
    let length = out.read(length.parse());
    let is_laid = laid(&descs_of(words, out), length);
    out.text(if is_laid { "laid\n" } else { "not laid\n" });
}

/// Appends each descriptor's part of a body.
pub fn push_parts(body: &[u8], words: &str, out: &mut Output) {
    push_parts_of(&descs_of(words, out), body, out);
}

fn push_parts_of(descs: &Descs, body: &[u8], out: &mut Output) {
    match u32::try_from(body.len()) {
        Ok(length) if laid(descs, length) => {
            for k in 0..descs.len() {
                out.hex(part(descs, body, k));
                out.text("\n");
            }
        }
        _ => out.refuse(),
    }
}

/// Appends the sum of the actual lengths.
pub fn push_total(words: &str, out: &mut Output) {
    push_total_of(&descs_of(words, out), out);
}

fn push_total_of(descs: &Descs, out: &mut Output) {
    if descs.len() > 1024 {
        return out.refuse();
    }
    out.number("", total(descs), "\n");
}

/// Appends the row of an endpoint in the table that an ep_info tells: its kind, its interval, its interface and its
/// largest packet. The words are the endpoint's byte and the agreed capabilities.
pub fn push_endpoint(words: &str, bytes: &[u8], out: &mut Output) {
    let (byte, caps) = words.split_once(' ').unwrap_or((words, "0"));
    let caps = caps_of(caps, out);
    match EpAddr::new(out.read(u8::from_str_radix(byte, 16))) {
        Some(ep) => push_endpoint_of(ep, caps, bytes, out),
        None => out.refuse(),
    }
}

fn push_endpoint_of(ep: EpAddr, caps: Caps, bytes: &[u8], out: &mut Output) {
    let state = RedirState::later(caps);
    match read_redir(out.alloc, state, Way::ToGuest, bytes) {
        Ok(Read::Whole(found, _)) => push_told_row(ep, &found.1, out),
        _ => out.refuse(),
    }
}

fn push_told_row(ep: EpAddr, packet: &RedirPacket, out: &mut Output) {
    match packet {
        RedirPacket::Plain(RedirControl::EpInfo(info)) => push_row(info.get().table().row(ep), out),
        _ => out.refuse(),
    }
}

fn push_row(row: EpRow, out: &mut Output) {
    let numbers = [
        i64::from(row.interval),
        i64::from(row.interface),
        i64::from(row.max_packet),
    ];
    out.line(kind_name(row.kind), &numbers);
}
