//! Lines of tapes, and the numbers in them.

use crate::output::Output;
use packet_show::{LineError, ModelLine, ReplayLine, read_number};

/// Appends what a line says in a tape to replay, and what it says in one of a model's steps.
pub fn push_tape_line(line: &[u8], out: &mut Output) {
    out.text("replay: ");
    match ReplayLine::read(out.alloc, line) {
        Ok(line) => push_replay_line(&line, out),
        Err(error) => push_error(error, out),
    }
    out.text("\nmodel: ");
    match ModelLine::read(out.alloc, line) {
        Ok(line) => push_model_line(&line, out),
        Err(error) => push_error(error, out),
    }
    out.text("\n");
}

fn push_replay_line(line: &ReplayLine, out: &mut Output) {
    match line {
        ReplayLine::Skip => out.text("nothing"),
        ReplayLine::Client(bytes) => push_piece("client ", bytes.as_slice(), out),
        ReplayLine::ClientEnd => out.text("the client's end"),
        ReplayLine::Host(bytes) => push_piece("host ", bytes.as_slice(), out),
        ReplayLine::HostEnd => out.text("the host's end"),
    }
}

fn push_model_line(line: &ModelLine, out: &mut Output) {
    match line {
        ModelLine::Skip => out.text("nothing"),
        ModelLine::Client(bytes) => push_piece("client ", bytes.as_slice(), out),
        ModelLine::ClientEnd => out.text("the client's end"),
        ModelLine::ToHost(count) => out.number("to the host ", u64::from(*count), ""),
        ModelLine::ToGate(count) => out.number("to the gate ", u64::from(*count), ""),
        ModelLine::Perform(ep) => push_piece("perform ", &[ep.byte()], out),
        ModelLine::Offer(ep) => push_piece("offer ", &[ep.byte()], out),
        ModelLine::Unplug => out.text("unplug"),
    }
}

fn push_error(error: LineError, out: &mut Output) {
    out.text(match error {
        LineError::Bad => "bad",
        LineError::Memory(_) => "out of memory",
    });
}

fn push_piece(name: &str, piece: &[u8], out: &mut Output) {
    out.text(name);
    out.hex(piece);
}

/// Appends the number of a text.
pub fn push_read_number(text: &[u8], out: &mut Output) {
    match read_number(text) {
        Some(number) => out.number("", u64::from(number), "\n"),
        None => out.text("none\n"),
    }
}
