//! One call of a reader of std.

ghost use Rattle.std.specs.Prelude.{ℕ, List, Option, Result};
ghost use Rattle.std.specs.Io.{ReadsAtMost};
ghost use Rattle.std.specs.Io.KnownBytes.{ReadConsumes};

use crate::fault::Failed;
use std::io::Read;

/// A reader whose answers a contract can name. Every reader of std is one. What its call does is a relation
/// that whoever is generic in the reader knows nothing of, so that only a call can show it.
pub trait Reader {
    ghost use Rattle.gate_outside.specs.declared.fault.Failed.{Failed as Fault};

    /// The bytes left, where it tells them.
    ghost remaining: { Self → Option (List ℕ) };

    /// What one call does: the reader before it, the buffer after it, the answer, and the reader after it.
    ghost read_gives: { Self → List ℕ → Result ℕ Fault → Self → Type 0 };

    /// Reads once, and returns how many bytes are now at the front of `buf`. Each error fails, an interrupted
    /// call among them.
    fn read_once(&mut self, buf: &mut [u8]) -> Result<usize, Failed>
        ensures bound { ReadsAtMost result buf.new }
        ensures bytes { ReadConsumes (remaining self.old) (remaining self.new) result buf.new }
        ensures gives { read_gives self.old buf.new result self.new };
}

impl<R: Read> Reader for R {
    ghost use Rattle.gate_outside.specs.Std.{Reads};

    ghost remaining = { λ reader. R.remaining reader };

    ghost read_gives = { λ old buf answer new. Reads (R.remaining old) (R.remaining new) answer buf };

    fn read_once(&mut self, buf: &mut [u8]) -> Result<usize, Failed> {
        self.read(buf).map_err(|_| Failed)
    }
}
