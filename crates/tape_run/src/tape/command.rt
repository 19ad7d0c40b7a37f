//! What a command over a tape is.

ghost use Rattle.std.specs.Prelude.{◌≡◌, ◌≢◌, ◌++◌, None, OnOk, true};
ghost use Rattle.tape_run.specs.tape.TapeCommand.{TapeCommand as Meant};
ghost use Rattle.tape_run.specs.tape.Kept.{TakesLine};
ghost use Rattle.packet_show.specs.Tape.{want};

use packet_show::LineError;
use std::alloc::Global;
use usb_base::{Bytes, Memory};

/// A command over a tape: it takes the lines one by one, and then ends. What it is to do is a task, which means plain
/// data (`Meant`, by what it keeps of the lines). `Keeps` says when it has that task and keeps that.
pub trait TapeCommand {
    ghost Kept: { Type 0 };

    ghost Task: { Type 0 };

    ghost means: { Task → Meant Kept };

    ghost Keeps: { Task → Self → Kept → Type 0 };

    /// Takes the next line, without its LF, and appends its text. A bad line changes nothing, and wants no memory.
    fn take_line(&mut self, alloc: Global, line: &[u8], text: &mut Bytes) -> Result<(), LineError>
        ensures goes { OnOk result ((task : Task) (kept : Kept) → Keeps task self.old kept → TakesLine (Keeps task) ((means task).line kept line.now) self.new text.old text.new) }
        ensures bad { result ≡ Err LineError.Bad → (task : Task) (kept : Kept) → Keeps task self.old kept → (means task).line kept line.now ≡ None }
        ensures same { result ≡ Err LineError.Bad → (self.new ≡ self.old) × (text.new ≡ text.old) }
        ensures memory { result ≡ Err (LineError.Memory want) → (task : Task) → (means task).says line.now ≡ true }
        ensures good { result ≡ Err (LineError.Memory want) → (task : Task) (kept : Kept) → Keeps task self.old kept → (means task).line kept line.now ≢ None };

    /// Appends the text behind the last line.
    fn close(&self, alloc: Global, text: &mut Bytes) -> Result<(), Memory>
        ensures { OnOk result ((task : Task) (kept : Kept) → Keeps task self.now kept → text.new ≡ text.old ++ (means task).closing kept) };

    /// Whether the run ends in a refusal.
    fn has_refused(&self) -> bool
        ensures { (task : Task) (kept : Kept) → Keeps task self.now kept → result ≡ (means task).refused kept };
}
