//! What a call gives for what a row puts to it.

use crate::buffers::{push_endpoint, push_laid, push_parts, push_total};
use crate::data_rows::push_data_row;
use crate::fronts::{push_found, push_fronts};
use crate::next::push_awaited;
use crate::output::Output;
use crate::reader::{Reader, caps_of};
use crate::streams::push_stream;
use crate::tapes::{push_read_number, push_tape_line};
use crate::texts::Texts;
use crate::type_rows::push_type_row;
use crate::usb_words::{
    push_address, push_agreed, push_kind, push_refusal, push_route, push_setup, push_speed,
    push_status,
};
use crate::written::{push_around_body, push_iso_out, push_to_device};
use usbip_urb::ret_seqnum;

/// Appends what a call gives.
pub fn push_answer(texts: &Texts, call: &str, input: &str, out: &mut Output) {
    let (name, setting) = call.split_once(' ').unwrap_or((call, ""));
    match name {
        "stream" => push_stream(texts, setting, input, out),
        "type" => push_type_row(setting, input, out),
        "data" => push_data_row(setting, input, out),
        "laid" => push_laid(setting, input, out),
        "parts" => push_parts(&texts.bytes_of(setting, out), input, out),
        "total" => push_total(input, out),
        "refusal" => push_refusal(input, out),
        "speed" => push_speed(input, out),
        "status" => push_status(input, out),
        "kind" => push_kind(input, out),
        "address" => push_address(input, out),
        "agreed" => push_agreed(input, out),
        _ => push_of_bytes(name, setting, &texts.bytes_of(input, out), out),
    }
}

/// Appends what a call gives for bytes.
fn push_of_bytes(name: &str, setting: &str, bytes: &[u8], out: &mut Output) {
    match name {
        "setup" => push_setup(bytes, out),
        "route" => push_route(bytes, out),
        "line" => push_tape_line(bytes, out),
        "number" => push_read_number(bytes, out),
        "seqnum" => push_seqnums(bytes, out),
        "next" => push_awaited(setting, bytes, out),
        "endpoint" => push_endpoint(setting, bytes, out),
        "device" => push_to_device(setting, bytes, out),
        "around" => push_around_body(setting, bytes, out),
        "iso" => push_iso(setting, bytes, out),
        _ => push_reads(name, setting, bytes, out),
    }
}

/// Appends a line for each front of an answer's bytes at which another number is told of its request than before.
fn push_seqnums(bytes: &[u8], out: &mut Output) {
    let mut last = None;
    for count in 0..=bytes.len() {
        let seqnum = ret_seqnum(&bytes[..count]);
        if last != Some(seqnum) {
            push_found(count, seqnum.map(u64::from), out);
            last = Some(seqnum);
        }
    }
}

/// Appends an isochronous packet. The words are the endpoint's byte, the agreed capabilities and the id.
fn push_iso(words: &str, body: &[u8], out: &mut Output) {
    let mut words = words.split_whitespace();
    let endpoint = out.read(u8::from_str_radix(words.next().unwrap_or(""), 16));
    let caps = caps_of(words.next().unwrap_or(""), out);
    let id = out.read(u64::from_str_radix(words.next().unwrap_or(""), 16));
    push_iso_out(endpoint, id, caps, body, out);
}

/// Appends what a reader gives for the fronts of bytes. Behind its setting may stand `every N` and `at PLACE`.
fn push_reads(name: &str, setting: &str, bytes: &[u8], out: &mut Output) {
    let (setting, place) = setting.split_once("at ").unwrap_or((setting, "0"));
    let (setting, every) = setting.split_once("every ").unwrap_or((setting, "1"));
    let reader = Reader::named(name, setting.trim(), out);
    let place = out.read(place.trim().parse());
    let every: usize = out.read(every.trim().parse());
    push_fronts(reader, place, every.max(1), bytes, out);
}
