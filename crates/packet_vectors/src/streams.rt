//! A stream that comes in pieces, and the packets that become whole.

use crate::fronts::push_answer;
use crate::lines::push_redir;
use crate::output::Output;
use crate::packets::push_client;
use crate::reader::Told;
use crate::texts::Texts;
use packet_stream::{PacketFormat, ReadError, Stream};
use redir_data::{FromGuest, FromHost, RedirPacket};
use redir_wire::{Header, RedirState};
use usbip_urb::{ClientFormat, ClientPacket};

/// A format whose packets have lines.
trait Lined: PacketFormat {
    /// Appends the packet's line.
    fn push(place: u64, packet: &Self::Packet, out: &mut Output);

    /// Appends what decides how the next packet is read.
    fn push_state(state: &Self::State, out: &mut Output);
}

impl Lined for ClientFormat {
    fn push(place: u64, packet: &ClientPacket, out: &mut Output) {
        push_client(place, packet, out);
    }

    fn push_state(_state: &(), out: &mut Output) {
        out.text("nothing\n");
    }
}

impl Lined for FromHost {
    fn push(place: u64, packet: &(Header, RedirPacket), out: &mut Output) {
        push_redir(place, &packet.0, &packet.1, out);
    }

    fn push_state(state: &RedirState, out: &mut Output) {
        push_redir_state(state, out);
    }
}

impl Lined for FromGuest {
    fn push(place: u64, packet: &(Header, RedirPacket), out: &mut Output) {
        push_redir(place, &packet.0, &packet.1, out);
    }

    fn push_state(state: &RedirState, out: &mut Output) {
        push_redir_state(state, out);
    }
}

fn push_redir_state(state: &RedirState, out: &mut Output) {
    let bits = state.caps.0;
    let hello = if state.first { "to come" } else { "come" };
    out.made(format!(in out.alloc; "hello {hello}, agreed {bits:x}\n"));
}

/// Takes the steps of a stream of this side, and appends what comes of each.
pub fn push_stream(texts: &Texts, side: &str, steps: &str, out: &mut Output) {
    match side {
        "client" => push_steps::<ClientFormat>(texts, (), steps, out),
        "host" => push_steps::<FromHost>(texts, RedirState::start(), steps, out),
        "guest" => push_steps::<FromGuest>(texts, RedirState::start(), steps, out),
        _ => out.refuse(),
    }
}

fn push_steps<F: Lined>(texts: &Texts, state: F::State, steps: &str, out: &mut Output) {
    let mut stream = Stream::<F>::new(out.alloc, state);
    for step in steps.split_whitespace() {
        push_step(texts, &mut stream, step, out);
        push_held(&stream, out);
    }
}

/// Takes a step, which is a word or the bytes of a piece, and appends what comes of it.
fn push_step<F: Lined>(texts: &Texts, stream: &mut Stream<F>, step: &str, out: &mut Output) {
    match step {
        "next" => push_next(stream, out),
        "all" => push_all(stream, out),
        "refuse" => out.number("refused at ", stream.refuse(), "\n"),
        "end" => stream.end(),
        "state" => F::push_state(stream.state(), out),
        "none" => out.note(stream.put(&[])),
        _ => put_piece(texts, stream, step, out),
    }
}

/// Puts a piece, whole or, behind `each:`, byte by byte.
fn put_piece<F: Lined>(texts: &Texts, stream: &mut Stream<F>, step: &str, out: &mut Output) {
    match step.strip_prefix("each:") {
        Some(words) => push_each(stream, &texts.bytes_of(words, out), out),
        None => {
            let put = stream.put(&texts.bytes_of(step, out));
            out.note(put);
        }
    }
}

/// Takes the next packet.
fn push_next<F: Lined>(stream: &mut Stream<F>, out: &mut Output) {
    match stream.next(out.alloc) {
        Ok(Some((place, packet))) => F::push(place, &packet, out),
        Ok(None) => {}
        Err(error) => push_error(error, out),
    }
}

fn push_error(error: ReadError, out: &mut Output) {
    push_answer(Told::Wrong(error), out);
    out.text("\n");
}

/// Takes packets while one is whole: at most as many as bytes are held, since each has one at least.
fn push_all<F: Lined>(stream: &mut Stream<F>, out: &mut Output) {
    for _ in 0..=stream.held() {
        match stream.next(out.alloc) {
            Ok(Some((place, packet))) => F::push(place, &packet, out),
            Ok(None) => return,
            Err(error) => return push_error(error, out),
        }
    }
}

/// Puts one byte after the other, and takes packets behind each.
fn push_each<F: Lined>(stream: &mut Stream<F>, bytes: &[u8], out: &mut Output) {
    for byte in bytes {
        out.note(stream.put(&[*byte]));
        push_all(stream, out);
    }
}

/// Appends how many bytes are held, and whether the stream is over.
fn push_held<F: Lined>(stream: &Stream<F>, out: &mut Output) {
    let end = if stream.is_over() { ", over\n" } else { "\n" };
    out.number("held ", stream.held() as u64, end);
}
