//! A session that isn't recorded.

ghost use Rattle.std.specs.Prelude.{IsOk};

use crate::tape::Tape;
use gate_outside::Failed;

/// A tape that is never made, so that nobody may write to it. Elsewhere a write needs a tape that is made, and here it
/// needs none, and does nothing.
#[derive(Clone, Copy)]
pub struct NoTape;

impl Tape for NoTape {
    ghost use Rattle.std.specs.Prelude.{None, false};
    ghost use Rattle.session_tape.specs.Tapes.{counts};

    ghost made = { λ tape. false };

    ghost contents = { λ tape. None };

    ghost counts = { λ tape. counts 0 0 };

    fn is_made(&self) -> bool {
        false
    }

    fn put(&mut self, _bytes: &[u8]) -> Result<(), Failed>
        ensures { IsOk result }
    {
        Ok(())
    }
}
