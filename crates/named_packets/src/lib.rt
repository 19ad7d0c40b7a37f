//! Packets by name, for the programs that try the gateway over rows of text. Nothing is proved of their bytes.
#![tactic(auto)]

mod shared;

use crate::shared::SHARED;
use std::alloc::Global;
use std::collections::HashMap;
use usb_base::Memory;

/// Packets by name, in hexadecimal. `#` stands for the next number in four bytes, the high one first, and `@` for the
/// next id in eight, the low one first. What more than one program has is there at first.
#[derive(Drop)]
pub struct Packets {
    named: HashMap<String, String>,
}

impl Packets {
    /// The packets that programs share have names.
    pub fn new(alloc: Global) -> Result<Packets, Memory> {
        let mut packets = Packets {
            named: HashMap::new(alloc),
        };
        packets.add_all(alloc, SHARED)?;
        Ok(packets)
    }

    /// Adds the packets of a text, one in each line. Empty lines and those behind `#` are none.
    pub fn add_all(&mut self, alloc: Global, text: &str) -> Result<(), Memory> {
        for line in text.lines() {
            let packet = line.trim();
            if is_row(packet) {
                self.add(alloc, packet)?;
            }
        }
        Ok(())
    }

    /// Adds a packet: its name and its bytes, among which packets may stand that have names. Numbers that don't stand
    /// behind those are numbers of this packet.
    pub fn add(&mut self, alloc: Global, packet: &str) -> Result<(), Memory> {
        let (name, words) = packet.split_once(' ').unwrap_or((packet, ""));
        let mut pieces = String::new(alloc);
        for word in words.split(' ') {
            self.push_word(&mut pieces, word, None)?;
        }
        self.named.insert(name.to_string(alloc)?, pieces)?;
        Ok(())
    }

    /// Appends the digits of bytes, or of a packet by its name and its numbers, which stand behind colons.
    pub fn push(&self, digits: &mut String, word: &str, turn: u32) -> Result<(), Memory> {
        self.push_word(digits, word, Some(turn))
    }

    /// Appends the digits of a word. Where it says no number, and there is no turn, the mark for one stays.
    fn push_word(&self, digits: &mut String, word: &str, turn: Option<u32>) -> Result<(), Memory> {
        let (name, numbers) = word.split_once(':').unwrap_or((word, ""));
        let Some(pieces) = self.named.get(name) else {
            return push_piece(digits, word);
        };
        let mut numbers = numbers.split(':');
        for piece in pieces.split(' ') {
            match piece {
                "#" => push_number(digits, value_of(numbers.next().unwrap_or(""), turn))?,
                "@" => push_id(digits, value_of(numbers.next().unwrap_or(""), turn))?,
                _ => digits.push_str(piece)?,
            }
        }
        Ok(())
    }
}

/// Whether a line is a row, and not empty or a comment.
pub fn is_row(line: &str) -> bool {
    !line.is_empty() && !line.starts_with('#')
}

/// A number in decimal. `N` stands for how often the line has come, `N+64` for 64 more, and `-5` for 5 below 0.
fn value_of(number: &str, turn: Option<u32>) -> Option<u32> {
    if let Some(below) = number.strip_prefix('-') {
        return Some(below.parse().unwrap_or(0_u32).wrapping_neg());
    }
    match number.strip_prefix("N+") {
        Some(more) => Some(turn?.wrapping_add(more.parse().unwrap_or(0_u32))),
        None => number.parse().ok().or(turn),
    }
}

/// Appends the piece of a word that is no name: bytes, or the mark for a number.
fn push_piece(digits: &mut String, piece: &str) -> Result<(), Memory> {
    match piece {
        "#" | "@" => push_mark(digits, piece),
        _ => push_bytes(digits, piece),
    }
}

/// Appends the mark for a number, which is a piece of its own.
fn push_mark(digits: &mut String, mark: &str) -> Result<(), Memory> {
    digits.push(' ')?;
    digits.push_str(mark)?;
    digits.push(' ')?;
    Ok(())
}

/// Appends a number of USB/IP, which has its high byte first.
fn push_number(digits: &mut String, number: Option<u32>) -> Result<(), Memory> {
    match number {
        Some(number) => write!(digits, "{number:08x}")?,
        None => push_mark(digits, "#")?,
    }
    Ok(())
}

/// Appends an id of usbredir, which has its low byte first.
fn push_id(digits: &mut String, id: Option<u32>) -> Result<(), Memory> {
    let Some(id) = id else {
        return push_mark(digits, "@");
    };
    let id = u64::from(id).swap_bytes();
    write!(digits, "{id:016x}")?;
    Ok(())
}

/// Appends bytes, which may be followed by how many times they come.
pub fn push_bytes(digits: &mut String, bytes: &str) -> Result<(), Memory> {
    let (bytes, times) = bytes.split_once('*').unwrap_or((bytes, "1"));
    for _ in 0..times.parse().unwrap_or(0_u32) {
        digits.push_str(bytes)?;
    }
    Ok(())
}
