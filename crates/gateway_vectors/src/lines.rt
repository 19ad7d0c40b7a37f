//! Lines of tapes and of printed text, in their words.

use named_packets::{Packets, push_bytes};
use usb_base::Memory;

/// Appends lines, with semicolons between them.
pub fn push_lines(
    packets: &Packets,
    text: &mut String,
    lines: &str,
    turn: u32,
) -> Result<(), Memory> {
    if lines.is_empty() {
        return Ok(());
    }
    for line in lines.split(';') {
        push_line(packets, text, line, turn)?;
    }
    Ok(())
}

/// Appends a line: a side's letter and its packets, or other words.
fn push_line(packets: &Packets, text: &mut String, line: &str, turn: u32) -> Result<(), Memory> {
    match line.split_once(' ') {
        Some((letter @ ("c" | "h" | "C" | "H" | "D"), words)) => {
            text.push_str(letter)?;
            text.push(' ')?;
            for word in words.split(' ') {
                packets.push(text, word, turn)?;
            }
        }
        _ => push_words(text, line)?,
    }
    text.push('\n')?;
    Ok(())
}

/// Appends words as they stand. Bytes of one word that come several times are joined, as in `00*8+01`.
fn push_words(text: &mut String, line: &str) -> Result<(), Memory> {
    for (at, word) in line.split(' ').enumerate() {
        if at > 0 {
            text.push(' ')?;
        }
        for bytes in word.split('+') {
            push_bytes(text, bytes)?;
        }
    }
    Ok(())
}

/// Appends characters of a tape or of a text, in words with nothing between them, which may be followed by how many
/// times they come.
pub fn push_characters(text: &mut String, words: &str) -> Result<(), Memory> {
    for word in words.split(' ') {
        let (word, times) = word.split_once('*').unwrap_or((word, "1"));
        for _ in 0..times.parse().unwrap_or(0_u32) {
            push_plain(text, word)?;
        }
    }
    Ok(())
}

/// Appends a word in which `\s` stands for a space, `\n` and `\r` for line feed and carriage return, and `\e` for
/// nothing.
pub fn push_plain(text: &mut String, word: &str) -> Result<(), Memory> {
    let mut parts = word.split('\\');
    text.push_str(parts.next().unwrap_or(""))?;
    for part in parts {
        let (mark, rest) = part.split_at_checked(1).unwrap_or(("", part));
        text.push_str(character_of(mark))?;
        text.push_str(rest)?;
    }
    Ok(())
}

fn character_of(mark: &str) -> &'static str {
    match mark {
        "s" => " ",
        "n" => "\n",
        "r" => "\r",
        _ => "",
    }
}
