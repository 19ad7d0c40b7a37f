//! Where a tape is written.

ghost use Rattle.std.specs.Prelude.{◌≡◌, Bool, ℕ, List, [], true, false, Option, None, IfSome, OnOk, OnErr};
ghost use Rattle.std.specs.Io.KnownBytes.{append_known};
ghost use Rattle.session_tape.specs.Tapes.{Counts, HasReason, CountsFault, GrowsInPart};

use gate_outside::Failed;

/// Why no file was made.
#[derive(Clone, Copy, Debug, PartialEq, Eq)]
pub enum Unmade {
    /// There is a file of that name. It is as it was.
    There,
    /// It can't be made.
    Failed,
}

/// What lines are written to, once it is made.
pub trait Tape {
    /// It is made.
    ghost made: { Self → Bool };

    /// Its bytes, where it is made and tells them.
    ghost contents: { Self → Option (List ℕ) };

    /// How often it has failed, and how often there was such a file before. Both stand still at `u64::MAX`.
    ghost counts: { Self → Counts };

    /// Whether it is made. What isn't has no bytes.
    fn is_made(&self) -> bool
        ensures made { result ≡ made self.now }
        ensures none { result ≡ false → contents self.now ≡ None };

    /// Writes all of the bytes, or, where that fails, a front of them.
    fn put(&mut self, bytes: &[u8]) -> Result<(), Failed>
        requires { made self.old ≡ true }
        ensures made { made self.new ≡ true }
        ensures ok { OnOk result (contents self.new ≡ append_known (contents self.old) bytes.now) }
        ensures err { OnErr result (GrowsInPart (contents self.old) (contents self.new) bytes.now) }
        ensures cause { CountsFault result (counts self.old) (counts self.new) };
}

/// A tape that is made by a file's name.
pub trait MakeTape: Tape {
    /// Makes the file of this name, which must not be there. Where that fails, what was made before stays so.
    fn make(&mut self, name: &str) -> Result<(), Unmade>
        ensures made { OnOk result (Self.made self.new ≡ true) }
        ensures empty { OnOk result (IfSome (Self.contents self.new) (λ held. held ≡ [])) }
        ensures kept { OnErr result ((Self.made self.new ≡ Self.made self.old) × (Self.contents self.new ≡ Self.contents self.old)) }
        ensures cause { HasReason result (Self.counts self.old) (Self.counts self.new) };
}
