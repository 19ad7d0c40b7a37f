//! A tape that comes in pieces, read line by line.

ghost use Rattle.std.specs.Prelude.{◌≡◌, ◌≢◌, ◌⊎◌, ◌++◌, ◌+◌, ◌<◌, ◌≤◌, ◌==◌, [], List, ℕ, length, IfOk, OnOk, OnErr, None, position, true, false};
ghost use Rattle.tape_run.specs.Printout.{tape_printout};
ghost use Rattle.tape_run.specs.tape.Tape.{content as content_of};
ghost use Rattle.tape_run.specs.Wants.{IsJoined, PieceWants, ReadWants};
ghost use Rattle.tape_run.specs.tape.TapeCommand.{Progress, next_line, read_tape};
ghost use Rattle.tape_run.specs.inner.tape.TapeReader.{HasRead, ReadsLine, Stage, Took, Stepped, Finished, AllRead, TookLast, TookLine, EndWants, KeepsPart};
ghost use Rattle.packet_show.specs.Tape.{want};

use crate::status::Status;
use crate::tape::command::TapeCommand;
use crate::tape::lines::TapeLines;
use memchr::memchr;
use packet_show::LineError;
use std::alloc::Global;
use usb_base::{Bytes, Memory};

/// Reads a tape line by line, and keeps the text of what it read.
#[derive(Drop)]
pub struct TapeReader<C> {
    pub lines: TapeLines<C>,
    /// What has come of the line that isn't whole.
    pub pending: Bytes,
    /// What is still to be written.
    pub text: Bytes,
}

impl<C: TapeCommand> TapeReader<C> {
    /// The reader to which nothing of its tape has come. The text is the command's first.
    pub fn start(alloc: Global, command: C, text: Bytes) -> TapeReader<C>
        ensures { (task : C.Task) → C.Keeps task command (C.means task).start → text ≡ (C.means task).opening → Stage (C.means task) (C.Keeps task) result [] [] }
    {
        TapeReader {
            lines: TapeLines::start(command),
            pending: Bytes::new(alloc),
            text,
        }
    }

    /// Reads the next piece of the tape, or, where that is empty, comes to the tape's end. It answers how the
    /// run ends: at the tape's end, or at a bad line, whose own line isn't among the text.
    pub fn step(&mut self, alloc: Global, piece: &[u8]) -> Result<Option<Status>, Memory>
        ensures ok { IfOk result (λ status. (task : C.Task) (read written : List ℕ) → Stage (C.means task) (C.Keeps task) self.old read written → Stepped (C.means task) (C.Keeps task) status self.new piece.now read written) }
        ensures wants { OnErr result ((task : C.Task) (read written : List ℕ) → Stage (C.means task) (C.Keeps task) self.old read written → ReadWants (tape_printout (C.means task)) read piece.now) }
    {
        if piece.is_empty() {
            return Ok(Some(self.end(alloc)?));
        }
        self.take(alloc, piece)
    }

    /// Reads the next piece of the tape. It answers how the run ends, if a line is bad. Lines that lie whole
    /// in the piece are read where they are.
    fn take(&mut self, alloc: Global, piece: &[u8]) -> Result<Option<Status>, Memory>
        ensures ok { IfOk result (λ status. (task : C.Task) (read written : List ℕ) → Stage (C.means task) (C.Keeps task) self.old read written → Took (C.means task) (C.Keeps task) status self.new (read ++ piece.now) written) }
        ensures wants { OnErr result ((task : C.Task) (read written : List ℕ) → Stage (C.means task) (C.Keeps task) self.old read written → PieceWants (tape_printout (C.means task)) read piece.now) }
    {
        let mut from = 0;
        while let Some(len) = line_end(&piece[from..]) {
            let end = from + len + 1;
            if let Some(status) = self.end_line(alloc, &piece[from..end])? {
                return Ok(Some(status));
            }
            from = end;
        }
        self.keep(&piece[from..])
    }

    /// Ends the tape, and answers how the run ends.
    fn end(&mut self, alloc: Global) -> Result<Status, Memory>
        ensures ok { IfOk result (λ status. (task : C.Task) (read written : List ℕ) → Stage (C.means task) (C.Keeps task) self.old read written → Finished (C.means task) (C.Keeps task) status self.new read written) }
        ensures good { OnErr result ((task : C.Task) (read written : List ℕ) → Stage (C.means task) (C.Keeps task) self.old read written → (read_tape (C.means task) read).bad ≡ false) }
    {
        if let Some(status) = self.last_line(alloc)? {
            return Ok(status);
        }
        self.close(alloc)
    }

    /// Reads the last line, if it has no LF.
    fn last_line(&mut self, alloc: Global) -> Result<Option<Status>, Memory>
        ensures ok { IfOk result (λ status. (task : C.Task) (read written : List ℕ) → Stage (C.means task) (C.Keeps task) self.old read written → TookLast (C.means task) (C.Keeps task) status self.new read written) }
        ensures good { OnErr result ((task : C.Task) (read written : List ℕ) → Stage (C.means task) (C.Keeps task) self.old read written → (read_tape (C.means task) read).bad ≡ false) }
    {
        if self.pending.is_empty() {
            return Ok(None);
        }
        self.end_line(alloc, b"")
    }

    /// Appends the last text.
    fn close(&mut self, alloc: Global) -> Result<Status, Memory>
        ensures { IfOk result (λ status. (task : C.Task) (read written : List ℕ) → AllRead (C.means task) (C.Keeps task) self.old read written → Finished (C.means task) (C.Keeps task) status self.new read written) }
    {
        self.lines.close(alloc, &mut self.text)?;
        if self.lines.has_refused() {
            return Ok(Status::Refused);
        }
        Ok(Status::Done)
    }

    /// Reads the line that ends with these bytes.
    fn end_line(&mut self, alloc: Global, last: &[u8]) -> Result<Option<Status>, Memory>
        requires { 0 < length (self.old.pending ++ last.now) }
        ensures ok { IfOk result (λ status. (task : C.Task) (p : Progress C.Kept) → HasRead (C.Keeps task) self.old.lines p → TookLine (C.means task) (C.Keeps task) status p (self.old.pending ++ last.now) self.old self.new) }
        ensures wants { OnErr result ((task : C.Task) (p : Progress C.Kept) → HasRead (C.Keeps task) self.old.lines p → EndWants (C.means task) p self.old.pending last.now) }
    {
        match self.put_line(alloc, last) {
            Ok(()) => {
                self.pending.clear();
                Ok(None)
            }
            Err(LineError::Bad) => Ok(Some(self.spoilt())),
            Err(LineError::Memory(memory)) => Err(memory),
        }
    }

    /// Puts the line that ends with these bytes to the command. A bad line wants no memory, but to join its parts, and
    /// not even that where it passes the limit.
    fn put_line(&mut self, alloc: Global, last: &[u8]) -> Result<(), LineError>
        requires { 0 < length (self.old.pending ++ last.now) }
        ensures goes { OnOk result ((task : C.Task) (s : Progress C.Kept) → HasRead (C.Keeps task) self.old.lines s
            → ReadsLine (C.Keeps task) (next_line (C.means task) s (self.old.pending ++ last.now)) self.new.lines self.old.text self.new.text) }
        ensures bad { result ≡ Err LineError.Bad → (task : C.Task) (s : Progress C.Kept) → HasRead (C.Keeps task) self.old.lines s → next_line (C.means task) s (self.old.pending ++ last.now) ≡ None }
        ensures same { result ≡ Err LineError.Bad → (self.new.lines ≡ self.old.lines) × (self.new.text ≡ self.old.text) }
        ensures memory { result ≡ Err (LineError.Memory want) → IsJoined self.old.pending last.now ⊎ ((task : C.Task) → (C.means task).says (content_of (self.old.pending ++ last.now)) ≡ true) }
        ensures good { result ≡ Err (LineError.Memory want) → IsJoined self.old.pending last.now
            ⊎ ((task : C.Task) (s : Progress C.Kept) → HasRead (C.Keeps task) self.old.lines s → next_line (C.means task) s (self.old.pending ++ last.now) ≢ None) }
        ensures within { result ≡ Err (LineError.Memory want) → length (self.old.pending ++ last.now) ≤ self.old.lines.room }
    {
        if !self.lines.has_room(self.pending.as_slice(), last) {
            return Err(LineError::Bad);
        }
        if self.pending.is_empty() {
            return self.lines.take_line(alloc, last, &mut self.text);
        }
        self.pending.append(last)?;
        self.lines
            .take_line(alloc, self.pending.as_slice(), &mut self.text)
    }

    /// Keeps a part of a line, unless the line passes the limit.
    fn keep(&mut self, part: &[u8]) -> Result<Option<Status>, Memory>
        ensures ok { IfOk result (λ status. (task : C.Task) (s : Progress C.Kept) → HasRead (C.Keeps task) self.old.lines s → KeepsPart status s (self.old.pending ++ part.now) self.old self.new) }
        ensures wants { OnErr result ((0 < length part.now) × (length (self.old.pending ++ part.now) ≤ self.old.lines.room)) }
    {
        if !self.lines.has_room(self.pending.as_slice(), part) {
            return Ok(Some(self.spoilt()));
        }
        self.pending.append(part)?;
        Ok(None)
    }

    /// How the run ends where the next line is bad.
    fn spoilt(&self) -> Status
        ensures { (task : C.Task) (s : Progress C.Kept) → HasRead (C.Keeps task) self.now.lines s → result ≡ Status.BadTape (s.lines + 1) }
    {
        Status::BadTape(self.lines.lines().saturating_add(1))
    }
}

/// Where the first LF is.
fn line_end(bytes: &[u8]) -> Option<usize>
    ensures { result ≡ position (λ b. b == 10) bytes.now }
{
    memchr(b'\n', bytes)
}
