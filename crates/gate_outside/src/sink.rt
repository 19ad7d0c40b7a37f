//! Where bytes go to.

ghost use Rattle.std.specs.Prelude.{◌<◌, List, ℕ, length, Option, Result, OnOk, OnErr, IfOk};
ghost use Rattle.std.specs.Io.{WritesAtMost};
ghost use Rattle.std.specs.Io.KnownBytes.{WriteAppends, Appends};
ghost use Rattle.gate_outside.specs.Faults.{HasCause};
ghost use Rattle.gate_outside.specs.Front.{AppendsFront};
ghost use Rattle.gate_outside.specs.Moved.{Moves, MovesFront};

use crate::fault::Failed;

/// Takes bytes, each behind those before it.
pub trait Sink {
    ghost use Rattle.gate_outside.specs.declared.fault.Failed.{Failed as Fault};

    /// The bytes it holds, where it tells them.
    ghost contents: { Self → Option (List ℕ) };

    /// How often it has failed. The count stands still at `u64::MAX`.
    ghost faults: { Self → ℕ };

    /// What a write does: the sink before it, the piece, the answer, and the sink after it. Only a call can show it.
    ghost write_gives: { Self → List ℕ → Result ℕ Fault → Self → Type 0 };

    /// Writes a front of `piece`, at least one byte of it, and returns how many. A call that fails writes none.
    fn write(&mut self, piece: &[u8]) -> Result<usize, Failed>
        requires { 0 < length piece.now }
        ensures bound { WritesAtMost result piece.now }
        ensures some { IfOk result (λ n. 0 < n) }
        ensures bytes { WriteAppends (contents self.old) (contents self.new) result piece.now }
        ensures cause { HasCause (faults self.old) (faults self.new) result }
        ensures gives { write_gives self.old piece.now result self.new };
}

/// Writes all of the bytes, or, where the sink fails, a front of them.
pub fn write_all<K: Sink>(sink: &mut K, bytes: &[u8]) -> Result<(), Failed>
    ensures ok { OnOk result (Appends (K.contents sink.old) (K.contents sink.new) bytes.now) }
    ensures err { OnErr result (AppendsFront (K.contents sink.old) (K.contents sink.new) bytes.now) }
    ensures cause { HasCause (K.faults sink.old) (K.faults sink.new) result }
    ensures writes { OnOk result (Moves K.write_gives bytes.now sink.old sink.new) }
    ensures writes_front { OnErr result (MovesFront K.write_gives bytes.now sink.old sink.new) }
{
    let mut done = 0;
    while done < bytes.len() {
        match sink.write(&bytes[done..]) {
            Ok(n) => done += n,
            Err(failed) => return Err(failed),
        }
    }
    Ok(())
}
