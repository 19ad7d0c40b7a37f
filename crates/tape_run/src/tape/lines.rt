//! A tape's lines, put to a command one by one.

ghost use Rattle.std.specs.Prelude.{◌≡◌, ◌≢◌, ◌++◌, ◌+◌, ◌<◌, ◌≤◌, ◌↔◌, length, OnOk, IsTrue, None, true};
ghost use Rattle.tape_run.specs.tape.Tape.{content as content_of};
ghost use Rattle.tape_run.specs.tape.TapeCommand.{Progress, begin, next_line};
ghost use Rattle.tape_run.specs.inner.tape.TapeReader.{HasRead, ReadsLine};
ghost use Rattle.packet_show.specs.Tape.{want};

use crate::tape::command::TapeCommand;
use packet_show::{LineError, TAPE_LIMIT};
use std::alloc::Global;
use usb_base::{Bytes, Memory};

/// A command, and what has been read of its tape.
#[derive(Drop)]
pub struct TapeLines<C> {
    command: C,
    /// How many lines have been read.
    lines: u64,
    /// How many bytes the tape may still have.
    room: u64,
}

impl<C: TapeCommand> TapeLines<C> {
    /// No line has been read.
    pub fn start(command: C) -> TapeLines<C>
        ensures { (task : C.Task) → C.Keeps task command (C.means task).start → HasRead (C.Keeps task) result (begin (C.means task)) }
    {
        TapeLines {
            command,
            lines: 0,
            room: TAPE_LIMIT,
        }
    }

    /// Reads the next line, which may have its LF, and appends its text: there is room for it (`has_room`). A bad line
    /// changes nothing, and wants no memory.
    pub fn take_line(
        &mut self,
        alloc: Global,
        line: &[u8],
        text: &mut Bytes,
    ) -> Result<(), LineError>
        requires some { 0 < length line.now }
        requires room { length line.now ≤ self.old.room }
        ensures goes { OnOk result ((task : C.Task) (s : Progress C.Kept) → HasRead (C.Keeps task) self.old s → ReadsLine (C.Keeps task) (next_line (C.means task) s line.now) self.new text.old text.new) }
        ensures bad { result ≡ Err LineError.Bad → (task : C.Task) (s : Progress C.Kept) → HasRead (C.Keeps task) self.old s → next_line (C.means task) s line.now ≡ None }
        ensures same { result ≡ Err LineError.Bad → (self.new ≡ self.old) × (text.new ≡ text.old) }
        ensures memory { result ≡ Err (LineError.Memory want) → (task : C.Task) → (C.means task).says (content_of line.now) ≡ true }
        ensures good { result ≡ Err (LineError.Memory want) → (task : C.Task) (s : Progress C.Kept) → HasRead (C.Keeps task) self.old s → next_line (C.means task) s line.now ≢ None }
    {
        self.command.take_line(alloc, content(line), text)?;
        self.room -= line.len() as u64;
        self.lines = self.lines.saturating_add(1);
        Ok(())
    }

    /// How many lines have been read.
    pub fn lines(&self) -> u64
        ensures { (task : C.Task) (s : Progress C.Kept) → HasRead (C.Keeps task) self.now s → result ≡ s.lines }
    {
        self.lines
    }

    /// Whether the tape may still have a line that begins with these two parts.
    pub fn has_room(&self, pending: &[u8], part: &[u8]) -> bool
        ensures room { IsTrue result ↔ (length (pending.now ++ part.now) ≤ self.now.room) }
        ensures limit { (task : C.Task) (s : Progress C.Kept) → HasRead (C.Keeps task) self.now s → IsTrue result ↔ (s.bytes + length (pending.now ++ part.now) ≤ TAPE_LIMIT) }
    {
        (pending.len() + part.len()) as u64 <= self.room
    }

    /// Whether the run ends in a refusal.
    pub fn has_refused(&self) -> bool
        ensures { (task : C.Task) (s : Progress C.Kept) → HasRead (C.Keeps task) self.now s → result ≡ (C.means task).refused s.kept }
    {
        self.command.has_refused()
    }

    /// Appends the text behind the last line.
    pub fn close(&self, alloc: Global, text: &mut Bytes) -> Result<(), Memory>
        ensures { OnOk result ((task : C.Task) (s : Progress C.Kept) → HasRead (C.Keeps task) self.now s → text.new ≡ text.old ++ (C.means task).closing s.kept) }
    {
        self.command.close(alloc, text)
    }
}

/// A line without its LF.
fn content(line: &[u8]) -> &[u8]
    ensures { result.now ≡ content_of line.now }
{
    if line.ends_with(b"\n") {
        return &line[..line.len() - 1];
    }
    line
}
