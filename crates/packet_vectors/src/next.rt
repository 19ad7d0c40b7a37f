//! How many bytes packets await, front by front.

use crate::fronts::push_found;
use crate::output::Output;
use crate::reader::{Reader, Setting, Told, told_by};
use redir_data::{next_redir, read_redir};
use std::alloc::Global;
use usbip_op::{OpWay, next_op, read_op};
use usbip_urb::{next_client, next_urb, read_client, read_urb};

/// Appends a line for each front of the bytes that is less than a packet and awaits another number of bytes than the
/// front before: how many bytes it has, and that number.
pub fn push_awaited(call: &str, bytes: &[u8], out: &mut Output) {
    let (name, setting) = call.split_once(' ').unwrap_or((call, ""));
    let reader = Reader::named(name, setting, out);
    push_awaited_by(reader, bytes, out);
}

fn push_awaited_by(reader: Reader, bytes: &[u8], out: &mut Output) {
    let mut last = None;
    for count in 0..=bytes.len() {
        let awaited = awaited_by(out.alloc, reader, &bytes[..count]);
        if last != awaited {
            push_found(count, awaited, out);
            last = awaited;
        }
    }
}

/// How many bytes are awaited, or none where a packet is whole or wrong.
fn awaited_by(alloc: Global, reader: Reader, bytes: &[u8]) -> Option<u64> {
    match reader {
        Reader::Client => of_client(alloc, bytes),
        Reader::Urb => of_urb(alloc, bytes),
        Reader::Op(way) => of_op(alloc, way, bytes),
        Reader::Redir(setting) => of_redir(alloc, setting, bytes),
        Reader::Ret(_) | Reader::Request | Reader::Header(_) => None,
    }
}

fn of_client(alloc: Global, bytes: &[u8]) -> Option<u64> {
    match told_by(read_client(alloc, bytes)) {
        Told::Short => Some(next_client(bytes) as u64),
        _ => None,
    }
}

fn of_urb(alloc: Global, bytes: &[u8]) -> Option<u64> {
    match told_by(read_urb(alloc, bytes)) {
        Told::Short => Some(next_urb(bytes) as u64),
        _ => None,
    }
}

fn of_op(alloc: Global, way: OpWay, bytes: &[u8]) -> Option<u64> {
    match told_by(read_op(alloc, way, bytes)) {
        Told::Short => Some(next_op(way, bytes) as u64),
        _ => None,
    }
}

fn of_redir(alloc: Global, setting: Setting, bytes: &[u8]) -> Option<u64> {
    let Setting { state, way } = setting;
    match told_by(read_redir(alloc, state, way, bytes)) {
        Told::Short => Some(next_redir(state, way, bytes) as u64),
        _ => None,
    }
}
