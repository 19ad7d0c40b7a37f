//! What an unlink makes of the request that it asks for.

ghost use Rattle.std.specs.Prelude.{◌≡◌};
ghost use Rattle.unlink_race.specs.Unlinking.{asked_back};

use crate::live::{Live, LiveKind};

/// What becomes of a request that an unlink asks for.
#[derive(Clone, Copy)]
pub enum AskedBack {
    /// It is being unlinked already, by the unlink with this number, which is kept.
    Already(u32),
    /// It waits for a stream, and is taken out.
    Taken,
    /// The host has it under this id, and is to be asked to cancel it: its answer decides.
    Cancel(u64),
    /// It went by a route, and those aren't cancelled: its status comes first.
    Waits,
}

impl Live {
    /// What becomes of it as it is asked back.
    pub fn asked_back(&self) -> AskedBack
        ensures { result ≡ asked_back self.now }
    {
        match (self.unlinker, self.kind) {
            (Some(first), _) => AskedBack::Already(first),
            (None, LiveKind::Stream { .. }) => AskedBack::Taken,
            (None, LiveKind::Wire { .. }) => AskedBack::Cancel(self.id),
            (None, LiveKind::Routed(_)) => AskedBack::Waits,
        }
    }
}
