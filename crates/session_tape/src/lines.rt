//! The lines of a tape.

ghost use Rattle.std.specs.Prelude.{◌≡◌, ◌++◌, IfOk, OnOk, OnErr, string_bytes};
ghost use Rattle.usb_base.specs.Writes.{Begins};
ghost use Rattle.session_tape.specs.Lines.{letter_of, lettered, piece_line, end_line, refusal_comment, first_comment};

use std::alloc::Global;
use usb_base::{Bytes, Memory, Refusal, Side, push_hex};

/// Appends the line of a piece of a side's stream. For want of memory a front of the line may be there.
pub fn push_piece(side: Side, bytes: &[u8], text: &mut Bytes) -> Result<(), Memory>
    ensures ok { OnOk result (text.new ≡ text.old ++ piece_line side bytes.now) }
    ensures err { OnErr result (Begins text.old text.new) }
{
    push_lettered(letter_of(side), bytes, text)?;
    text.push(b'\n')
}

/// Appends a letter, a space, and bytes in lower-case hexadecimal. For want of memory a front of them may be there.
pub fn push_lettered(letter: u8, bytes: &[u8], text: &mut Bytes) -> Result<(), Memory>
    ensures ok { OnOk result (text.new ≡ text.old ++ lettered letter bytes.now) }
    ensures err { OnErr result (Begins text.old text.new) }
{
    text.push(letter)?;
    text.push(b' ')?;
    push_hex(bytes, text)
}

/// Appends the line of a side's end. For want of memory a front of the line may be there.
pub fn push_end(side: Side, text: &mut Bytes) -> Result<(), Memory>
    ensures ok { OnOk result (text.new ≡ text.old ++ end_line side) }
    ensures err { OnErr result (Begins text.old text.new) }
{
    text.push(letter_of(side))?;
    text.push(b'.')?;
    text.push(b'\n')
}

fn letter_of(side: Side) -> u8
    ensures { result ≡ letter_of side }
{
    match side {
        Side::Client => b'c',
        Side::Host => b'h',
    }
}

/// Appends the line of a refusal, as a comment. For want of memory a front of it may be there.
pub fn push_refusal(alloc: Global, refusal: &Refusal, text: &mut Bytes) -> Result<(), Memory>
    ensures ok { OnOk result (text.new ≡ text.old ++ refusal_comment refusal.now) }
    ensures err { OnErr result (Begins text.old text.new) }
{
    text.append(b"# ")?;
    refusal.line(alloc, text)
}

/// The comment with the first id, and LF.
pub fn first_comment(alloc: Global, first_id: u64) -> Result<String, Memory>
    ensures { IfOk result (λ text. string_bytes text ≡ first_comment first_id) }
{
    Ok(format!(in alloc; "# --first-id {first_id}\n")?)
}
