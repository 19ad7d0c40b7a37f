//! One call of a writer of std.

ghost use Rattle.std.specs.Prelude.{ℕ, List, Option, Result};
ghost use Rattle.std.specs.Io.{WritesAtMost};
ghost use Rattle.std.specs.Io.KnownBytes.{WriteAppends};

use crate::fault::Failed;
use std::io::Write;

/// A writer whose answers a contract can name. Every writer of std is one. What its call does is a relation
/// that whoever is generic in the writer knows nothing of, so that only a call can show it.
pub trait Writer {
    ghost use Rattle.gate_outside.specs.declared.fault.Failed.{Failed as Fault};

    /// The bytes it holds, where it tells them.
    ghost contents: { Self → Option (List ℕ) };

    /// What one call does: the writer before it, the piece, the answer, and the writer after it.
    ghost write_gives: { Self → List ℕ → Result ℕ Fault → Self → Type 0 };

    /// Writes once, and returns how many bytes of the piece were taken. Each error fails, an interrupted call
    /// among them.
    fn write_once(&mut self, piece: &[u8]) -> Result<usize, Failed>
        ensures bound { WritesAtMost result piece.now }
        ensures bytes { WriteAppends (contents self.old) (contents self.new) result piece.now }
        ensures gives { write_gives self.old piece.now result self.new };
}

impl<W: Write> Writer for W {
    ghost use Rattle.gate_outside.specs.Std.{Writes};

    ghost contents = { λ writer. W.contents writer };

    ghost write_gives = { λ old piece answer new. Writes (W.contents old) (W.contents new) answer piece };

    fn write_once(&mut self, piece: &[u8]) -> Result<usize, Failed> {
        self.write(piece).map_err(|_| Failed)
    }
}
