//! Where bytes come from.

ghost use Rattle.std.specs.Prelude.{◌<◌, List, ℕ, length, Option, Result};
ghost use Rattle.std.specs.Io.{ReadsAtMost};
ghost use Rattle.std.specs.Io.KnownBytes.{ReadConsumes};
ghost use Rattle.gate_outside.specs.Faults.{HasCause};

use crate::fault::Failed;

/// Bytes that are read from front to end.
pub trait Source {
    ghost use Rattle.gate_outside.specs.declared.fault.Failed.{Failed as Fault};

    /// The bytes left, where it tells them.
    ghost remaining: { Self → Option (List ℕ) };

    /// How often it has failed. The count stands still at `u64::MAX`.
    ghost faults: { Self → ℕ };

    /// What a read does: the source before it, the buffer after it, the answer, and the source after it. Only a call
    /// can show it.
    ghost read_gives: { Self → List ℕ → Result ℕ Fault → Self → Type 0 };

    /// Reads the next bytes into the front of `buf`, and returns how many: none exactly at the end. A call
    /// that fails reads none.
    fn read(&mut self, buf: &mut [u8]) -> Result<usize, Failed>
        requires { 0 < length buf.old }
        ensures bound { ReadsAtMost result buf.new }
        ensures bytes { ReadConsumes (remaining self.old) (remaining self.new) result buf.new }
        ensures cause { HasCause (faults self.old) (faults self.new) result }
        ensures gives { read_gives self.old buf.new result self.new };
}
