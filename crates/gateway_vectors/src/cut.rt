//! Tapes whose lines are cut, and texts whose bytes are joined.

use std::alloc::Global;
use usb_base::Memory;

/// A tape with each of its lines cut: a first piece of so many bytes, and then pieces of at most so many.
pub fn cut_tape(alloc: Global, tape: &str, first: usize, later: usize) -> Result<Vec<u8>, Memory> {
    let mut cut = Vec::new(alloc);
    for line in tape.split('\n') {
        push_cut(&mut cut, line.as_bytes(), first, later)?;
    }
    Ok(cut)
}

fn push_cut(cut: &mut Vec<u8>, line: &[u8], first: usize, later: usize) -> Result<(), Memory> {
    let Some((letter, digits)) = line.split_at_checked(2) else {
        return Ok(());
    };
    let (front, back) = digits.split_at(first.saturating_mul(2).min(digits.len()));
    push_piece(cut, letter, front)?;
    for piece in back.chunks(later.max(1).saturating_mul(2)) {
        push_piece(cut, letter, piece)?;
    }
    Ok(())
}

fn push_piece(cut: &mut Vec<u8>, letter: &[u8], digits: &[u8]) -> Result<(), Memory> {
    cut.extend_from_slice(letter)?;
    cut.extend_from_slice(digits)?;
    cut.push(b'\n')?;
    Ok(())
}

/// The text with the bytes of each side joined, before its other lines.
pub fn joined(alloc: Global, text: &str) -> Result<String, Memory> {
    let mut joined = String::new(alloc);
    push_joined(&mut joined, text, "C ")?;
    push_joined(&mut joined, text, "H ")?;
    push_others(&mut joined, text)?;
    Ok(joined)
}

/// Appends what stands behind this letter in the lines of a text, as one line.
fn push_joined(joined: &mut String, text: &str, letter: &str) -> Result<(), Memory> {
    joined.push_str(letter)?;
    for line in text.split('\n') {
        if let Some(digits) = line.strip_prefix(letter) {
            joined.push_str(digits)?;
        }
    }
    joined.push('\n')?;
    Ok(())
}

fn push_others(joined: &mut String, text: &str) -> Result<(), Memory> {
    for line in text.split('\n') {
        if !line.starts_with("C ") && !line.starts_with("H ") {
            joined.push_str(line)?;
            joined.push('\n')?;
        }
    }
    Ok(())
}
