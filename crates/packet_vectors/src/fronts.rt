//! A reader over all fronts of bytes, from none of them to all.

ghost use Rattle.std.specs.Prelude.{◌<◌};

use crate::output::Output;
use crate::packets::push_packet;
use crate::reader::{Reader, Told};

/// Appends a line for each front of the bytes at which the reader's answer is another than before: how many bytes the
/// front has, the answer, and of a whole packet its line. Only each `every` bytes a front is read, and all of them.
pub fn push_fronts(reader: Reader, place: u64, every: usize, bytes: &[u8], out: &mut Output)
    requires { 0 < every }
{
    let mut last = None;
    for count in 0..=bytes.len() {
        if count % every == 0 || count == bytes.len() {
            let front = &bytes[..count];
            let told = reader.told(out.alloc, front);
            if last != Some(told) {
                push_told(reader, place, told, front, out);
                last = Some(told);
            }
        }
    }
}

fn push_told(reader: Reader, place: u64, told: Told, front: &[u8], out: &mut Output) {
    out.number("", front.len() as u64, " ");
    push_answer(told, out);
    match told {
        Told::Whole(_) => {
            out.text(": ");
            push_packet(reader, place, front, out);
        }
        Told::Short | Told::Wrong(_) => out.text("\n"),
    }
}

/// Appends an answer.
pub fn push_answer(told: Told, out: &mut Output) {
    match told {
        Told::Whole(size) => out.number("whole ", size as u64, ""),
        Told::Short => out.text("short"),
        Told::Wrong(error) => out.made(error.to_string(out.alloc)),
    }
}

/// Appends how many bytes a front has, and the number that was found in it, or `none`.
pub fn push_found(count: usize, found: Option<u64>, out: &mut Output) {
    out.number("", count as u64, " ");
    match found {
        Some(number) => out.number("", number, "\n"),
        None => out.text("none\n"),
    }
}
