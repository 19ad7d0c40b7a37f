//! The lines that commands over tapes print.

ghost use Rattle.std.specs.Prelude.{◌≡◌, ◌++◌, IfOk, OnOk, string_bytes};
ghost use Rattle.std.specs.List.{flat_map};
ghost use Rattle.usb_base.specs.Refusal.{refusal_line};
ghost use Rattle.direct_run.specs.Lines.{item_line};
ghost use Rattle.tape_run.specs.Text.{bytes_line, note_line, told_text, counts_line, bad_line as line_of_bad};

pub mod printed;

use arrayvec::ArrayString;
use direct_run::{Items, Refusals, Told};
use gate_history::{Counts, Note, Notes};
use itoa::Buffer;
use session_tape::push_lettered;
use std::alloc::Global;
use usb_base::{Bytes, Memory};

/// What a call prints whose words are no command.
pub const USAGE: &[u8] = b"usage: usbgate COMMAND [options]\n";

/// Appends a side's letter, a space, the bytes that are sent to it in lower-case hexadecimal, and LF. Where
/// there are no bytes it appends nothing. For want of memory a front of the line may be there.
pub fn push_bytes(letter: u8, bytes: &[u8], text: &mut Bytes) -> Result<(), Memory>
    ensures { OnOk result (text.new ≡ text.old ++ bytes_line letter bytes.now) }
{
    if bytes.is_empty() {
        return Ok(());
    }
    push_lettered(letter, bytes, text)?;
    text.push(b'\n')
}

/// Appends the line of each refusal among the notes. For want of memory a front of the lines may be there.
pub fn push_notes(alloc: Global, notes: &Notes, text: &mut Bytes) -> Result<(), Memory>
    ensures { OnOk result (text.new ≡ text.old ++ flat_map note_line notes.now) }
{
    for note in notes.as_slice() {
        if let Note::Refused(refusal) = note {
            refusal.line(alloc, text)?;
        }
    }
    Ok(())
}

/// Appends what a step tells: its items, the bytes that it puts on each wire, and whom the gateway refuses. For want of
/// memory a front of the lines may be there.
pub fn push_told(alloc: Global, told: &Told, text: &mut Bytes) -> Result<(), Memory>
    ensures { OnOk result (text.new ≡ text.old ++ told_text told.now) }
{
    push_items(alloc, &told.items, text)?;
    push_bytes(b'C', told.to_client.as_slice(), text)?;
    push_bytes(b'H', told.to_host.as_slice(), text)?;
    push_bytes(b'D', told.from_host.as_slice(), text)?;
    push_refusals(alloc, &told.refusals, text)
}

fn push_items(alloc: Global, items: &Items, text: &mut Bytes) -> Result<(), Memory>
    ensures { OnOk result (text.new ≡ text.old ++ flat_map item_line items.now) }
{
    for item in items.as_slice() {
        item.line(alloc, text)?;
    }
    Ok(())
}

fn push_refusals(alloc: Global, refusals: &Refusals, text: &mut Bytes) -> Result<(), Memory>
    ensures { OnOk result (text.new ≡ text.old ++ flat_map refusal_line refusals.now) }
{
    for refusal in refusals.as_slice() {
        refusal.line(alloc, text)?;
    }
    Ok(())
}

/// Appends the line of the counts.
pub fn push_counts(alloc: Global, counts: &Counts, text: &mut Bytes) -> Result<(), Memory>
    ensures { OnOk result (text.new ≡ text.old ++ counts_line counts.now) }
{
    let line = counts_text(alloc, counts)?;
    text.append(line.as_bytes())
}

fn counts_text(alloc: Global, counts: &Counts) -> Result<String, Memory>
    ensures { IfOk result (λ text. string_bytes text ≡ counts_line counts.now) }
{
    let answered = counts.answered;
    let unlinked = counts.unlinked;
    let left = counts.left;
    let dropped = counts.dropped;
    Ok(format!(in alloc;
        "answered {answered} unlinked {unlinked} left {left} dropped {dropped}\n"
    )?)
}

/// How long the line may be that names a bad line.
const BAD_LINE: usize = 30;

/// The line that names the first bad line, counted from 1. It takes no memory.
pub fn bad_line(number: u64) -> ArrayString<BAD_LINE>
    ensures { result.bytes ≡ line_of_bad number }
{
    let mut digits = Buffer::new();
    let mut line = ArrayString::new();
    line.push_str("bad tape ");
    line.push_str(digits.format(number));
    line.push_str("\n");
    line
}
