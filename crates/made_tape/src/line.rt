//! The lines of a model's tape, written.

ghost use Rattle.std.specs.Prelude.{◌≡◌, ◌++◌, ◌∷◌, OnOk};
ghost use Rattle.std.specs.Fmt.{decimal};
ghost use Rattle.packet_show.specs.Line.{SPACE};
ghost use Rattle.made_tape.specs.Lines.{line_of, words_of};

use itoa::Buffer;
use packet_show::ModelLine;
use session_tape::push_lettered;
use usb_base::{Bytes, Memory};

/// Appends what a line says, and LF. For want of memory a front of it may be there.
pub fn push_line(line: &ModelLine, text: &mut Bytes) -> Result<(), Memory>
    ensures { OnOk result (text.new ≡ text.old ++ line_of line.now) }
{
    push_words(line, text)?;
    text.push(b'\n')
}

fn push_words(line: &ModelLine, text: &mut Bytes) -> Result<(), Memory>
    ensures { OnOk result (text.new ≡ text.old ++ words_of line.now) }
{
    match line {
        ModelLine::Skip => Ok(()),
        ModelLine::Client(piece) => push_lettered(b'c', piece.as_slice(), text),
        ModelLine::ClientEnd => text.append(b"c."),
        ModelLine::ToHost(count) => push_number(b'g', *count, text),
        ModelLine::ToGate(count) => push_number(b'h', *count, text),
        ModelLine::Perform(ep) => push_lettered(b'p', &[ep.byte()], text),
        ModelLine::Offer(ep) => push_lettered(b'o', &[ep.byte()], text),
        ModelLine::Unplug => text.push(b'x'),
    }
}

/// Appends a letter, a space, and a number in decimal.
fn push_number(letter: u8, number: u32, text: &mut Bytes) -> Result<(), Memory>
    ensures { OnOk result (text.new ≡ text.old ++ letter ∷ SPACE ∷ decimal number) }
{
    let mut buffer = Buffer::new();
    text.push(letter)?;
    text.push(b' ')?;
    text.append(buffer.format(number).as_bytes())
}
