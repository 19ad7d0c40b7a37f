//! A line is appended word by word: a place and a name, then fields, each behind a space, and LF.

ghost use Rattle.std.specs.Prelude.{◌≡◌, ◌++◌, ◌∷◌, [], ◌≤◌, List, ℕ, length, map};
ghost use Rattle.usb_base.specs.Writes.{Appends, AppendsSome};
ghost use Rattle.packet_show.specs.Line.{LF, decimal, spaced, spaced_words, hex_word};

use itoa::{Buffer, Integer};
use std::alloc::Global;
use usb_base::{Bytes, Memory};

/// Appends what a packet's line begins with: the place of the packet in its stream, and the packet's name.
pub fn push_begin(place: u64, name: &str, out: &mut Bytes) -> Result<(), Memory>
    ensures { AppendsSome result out.old out.new (decimal place ++ spaced name.now) }
{
    let mut buffer = Buffer::new();
    out.append(buffer.format(place).as_bytes())?;
    push_word(name.as_bytes(), out)?;
    Ok(())
}

/// Appends a word.
#[tactic(auto, unfolding(crate::specs::Line::spaced))]
pub fn push_word(word: &[u8], out: &mut Bytes) -> Result<(), Memory>
    ensures { AppendsSome result out.old out.new (spaced word.now) }
{
    out.push(b' ')?;
    out.append(word)?;
    Ok(())
}

/// Appends a number in decimal.
pub fn push_number<I: Integer>(number: I, out: &mut Bytes) -> Result<(), Memory>
    ensures { AppendsSome result out.old out.new (spaced (I.text number)) }
{
    let mut buffer = Buffer::new();
    push_word(buffer.format(number).as_bytes(), out)
}

/// Appends numbers in decimal.
#[tactic(auto, using(crate::proofs::Words::spacing))]
pub fn push_numbers<I: Integer>(numbers: &[I], out: &mut Bytes) -> Result<(), Memory>
    ensures { AppendsSome result out.old out.new (spaced_words (map I.text numbers.now)) }
{
    for number in numbers {
        push_number(*number, out)?;
    }
    Ok(())
}

/// Appends bytes in lower-case hexadecimal, or `-` where there are none.
pub fn push_bytes(alloc: Global, bytes: &[u8], out: &mut Bytes) -> Result<(), Memory>
    ensures { AppendsSome result out.old out.new (spaced (hex_word bytes.now)) }
{
    if bytes.is_empty() {
        return push_word(b"-", out);
    }
    let digits = hex::encode(alloc, bytes)?;
    push_word(digits.as_bytes(), out)
}

/// Ends the line that was begun where `out` had `from` bytes. For want of memory, now or before, nothing of the
/// line stays.
pub fn end_line(begun: Result<(), Memory>, from: usize, out: &mut Bytes) -> Result<(), Memory>
    requires { from ≤ length out.old }
    ensures { (front text : List ℕ) → length front ≡ from → AppendsSome begun front out.old text
        → Appends result front out.new (text ++ LF ∷ []) }
{
    let ended = match begun {
        Ok(()) => out.push(b'\n'),
        Err(memory) => Err(memory),
    };
    out.cut_on_err(from, ended)
}
