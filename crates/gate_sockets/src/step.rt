//! What one call of the system moved.

ghost use Rattle.std.specs.Prelude.{◌≡◌, ◌≤◌, IfOk};
ghost use Rattle.gate_sockets.specs.Step.{IsStepWithin, step_for};

use std::io;
use std::io::ErrorKind;

/// What one call of the system gave.
#[derive(Clone, Copy)]
pub(crate) enum Step {
    Moved(usize),
    /// Nothing can be moved until the system tells so.
    Blocked,
    /// It was cut short: it is worth another try.
    Cut,
    /// The link has broken.
    Broken(io::Error),
}

/// What a read or a write gave.
pub(crate) fn step_of(answer: io::Result<usize>, limit: usize) -> Step
    requires { IfOk answer (λ count. count ≤ limit) }
    ensures within { IsStepWithin limit result }
    ensures value { result ≡ step_for answer }
{
    match answer {
        Ok(count) => Step::Moved(count),
        Err(e) => match e.kind() {
            ErrorKind::WouldBlock => Step::Blocked,
            ErrorKind::Interrupted | ErrorKind::OutOfMemory => Step::Cut,
            _ => Step::Broken(e),
        },
    }
}
