//! The command `make`: the tape that a number stands for.

ghost use Rattle.std.specs.Prelude.{◌≢◌, ℕ};
ghost use Rattle.tape_run.specs.model.Made.{made};
ghost use Rattle.tape_run.specs.Printout.{printed};
ghost use Rattle.tape_run.specs.Logs.{RunWrites};
ghost use Rattle.tape_run.specs.Causes.{HasCauses};

use crate::status::Status;
use crate::text::printed::print;
use gate_outside::Sink;
use made_tape::made_text;
use std::alloc::Global;

/// Prints the tape.
pub fn make<K: Sink>(alloc: Global, count: u16, out: &mut K) -> Status
    ensures leaves { RunWrites K.write_gives K.contents result (printed (made count)) out.old out.new }
    ensures causes { (faults : ℕ) → HasCauses result faults faults (K.faults out.old) (K.faults out.new) }
    ensures command { result ≢ Status.Usage }
{
    match made_text(alloc, count) {
        Ok(text) => print(text.as_slice(), Status::Done, out),
        Err(_) => Status::OutOfMemory,
    }
}
