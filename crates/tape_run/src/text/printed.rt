//! Texts for which no tape is read.

ghost use Rattle.std.specs.Prelude.{◌≡◌, ◌⊎◌, ℕ};
ghost use Rattle.tape_run.specs.Printout.{untaped};
ghost use Rattle.tape_run.specs.Logs.{RunWrites};
ghost use Rattle.tape_run.specs.Causes.{HasCauses};

use crate::status::Status;
use gate_outside::{Sink, write_all};

/// Writes the text of a command, or how words should be that are no command, and ends with the status.
pub fn print<K: Sink>(text: &[u8], status: Status, out: &mut K) -> Status
    requires { (status ≡ Status.Done) ⊎ (status ≡ Status.Usage) }
    ensures leaves { RunWrites K.write_gives K.contents result (untaped status text.now) out.old out.new }
    ensures causes { (faults : ℕ) → HasCauses result faults faults (K.faults out.old) (K.faults out.new) }
    ensures ends { (result ≡ status) ⊎ (result ≡ Status.WriteFault) }
{
    match write_all(out, text) {
        Ok(()) => status,
        Err(_) => Status::WriteFault,
    }
}
