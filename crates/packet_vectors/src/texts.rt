//! Texts by name, texts with repetitions, and the bytes that hexadecimal digits stand for.

use crate::output::Output;
use hex::FromHexError;
use named_packets::Packets;
use std::alloc::{AllocError, Global};
use usb_base::{Bytes, Memory};

/// Texts by name. A word is pieces with `+` between them, of which each is a text or a name, behind which its numbers
/// stand; `00*8` stands for eight times `00`, and `~` in front of a piece for a space.
#[derive(Drop)]
pub struct Texts {
    packets: Packets,
}

impl Texts {
    /// The packets that programs share have names.
    pub fn new(alloc: Global) -> Result<Texts, Memory> {
        let packets = Packets::new(alloc)?;
        Ok(Texts { packets })
    }

    /// Adds a text: its name, and its words, which are joined.
    pub fn add(&mut self, alloc: Global, line: &str) -> Result<(), Memory> {
        self.packets.add(alloc, line)
    }

    /// The text with this name. Any other is itself.
    fn text_of(&self, name: &str, out: &mut Output) -> String {
        let mut text = String::new(out.alloc);
        out.note(self.packets.push(&mut text, name, 0));
        text
    }

    /// Appends a word.
    fn push_word(&self, word: &str, out: &mut Output) {
        for piece in word.split('+') {
            let (name, times) = piece.split_once('*').unwrap_or((piece, "1"));
            let (gap, name) = match name.strip_prefix('~') {
                Some(name) => (" ", name),
                None => ("", name),
            };
            let repeated = self.text_of(name, out);
            for _ in 0..times.parse().unwrap_or(0_u32) {
                out.text(gap);
                out.text(repeated.as_str());
            }
        }
    }

    /// The lines of a text that has a semicolon between two of them. `*8` in front of one stands for eight such lines.
    pub fn lines_of(&self, alloc: Global, lines: &str) -> Result<Bytes, Memory> {
        let mut text = Output::new(alloc);
        for line in lines.trim().split(';') {
            self.push_lines(line.trim(), &mut text);
        }
        text.taken()
    }

    fn push_lines(&self, line: &str, out: &mut Output) {
        let (times, line) = match line.strip_prefix('*') {
            Some(counted) => counted.split_once(' ').unwrap_or((counted, "")),
            None => ("1", line),
        };
        for _ in 0..times.parse().unwrap_or(0_u32) {
            self.push_line(line, out);
        }
    }

    fn push_line(&self, line: &str, out: &mut Output) {
        let mut is_first = true;
        for word in line.split(' ') {
            if !is_first {
                out.text(" ");
            }
            self.push_word(word, out);
            is_first = false;
        }
        out.text("\n");
    }

    /// The bytes of words, or those of a text in quotation marks. A word `PLACE=WORD` puts other bytes at a place.
    pub fn bytes_of(&self, words: &str, out: &mut Output) -> Vec<u8> {
        let mut bytes = Vec::new(out.alloc);
        match words.strip_prefix('"') {
            Some(text) => add_to(
                &mut bytes,
                text.strip_suffix('"').unwrap_or(text).as_bytes(),
                out,
            ),
            None => {
                for word in words.split_whitespace() {
                    self.put_word(word, &mut bytes, out);
                }
            }
        }
        bytes
    }

    fn put_word(&self, word: &str, bytes: &mut Vec<u8>, out: &mut Output) {
        match word.split_once('=') {
            Some((place, field)) => {
                let place = out.read(place.parse());
                replace(bytes, place, &self.decoded(field, out));
            }
            None => add_to(bytes, &self.decoded(word, out), out),
        }
    }

    fn decoded(&self, word: &str, out: &mut Output) -> Vec<u8> {
        let mut digits = Output::new(out.alloc);
        self.push_word(word, &mut digits);
        out.note(digits.whole());
        match hex::decode(out.alloc, digits.bytes.as_slice()) {
            Ok(bytes) => return bytes,
            Err(FromHexError::OutOfMemory) => out.note(Err(AllocError.into())),
            Err(_) => out.refuse(),
        }
        Vec::new(out.alloc)
    }
}

/// Adds bytes at the end.
fn add_to(bytes: &mut Vec<u8>, piece: &[u8], out: &mut Output) {
    let part = bytes.extend_from_slice(piece);
    out.note(part.map_err(Memory::from));
}

/// Puts other bytes at a place.
fn replace(bytes: &mut Vec<u8>, place: usize, field: &[u8]) {
    for (byte, new) in bytes.iter_mut().skip(place).zip(field) {
        *byte = *new;
    }
}
