//! What decides how the next packet of a stream is read.

ghost use Rattle.std.specs.Prelude.{◌≡◌};
ghost use Rattle.redir_wire.specs.State.{start, later, after_hello};

use crate::packet::{Caps, Hello};

/// What a stream has told so far that its next packet hangs on.
#[derive(Clone, Copy)]
pub struct RedirState {
    /// The stream's hello is still to come.
    pub first: bool,
    /// The capabilities that are agreed.
    pub caps: Caps,
}

impl RedirState {
    /// Before the hello, where nothing is agreed.
    pub fn start() -> RedirState
        ensures { result ≡ start }
    {
        RedirState {
            first: true,
            caps: Caps::empty(),
        }
    }

    /// Behind the hello, where these capabilities are agreed.
    pub fn later(caps: Caps) -> RedirState
        ensures { result ≡ later caps }
    {
        RedirState { first: false, caps }
    }

    /// Behind this hello, whose capabilities are agreed where the gateway announces them, too.
    pub fn after_hello(hello: &Hello) -> RedirState
        ensures { result ≡ after_hello hello.now }
    {
        RedirState::later(hello.caps().agreed(Caps::ANNOUNCED))
    }
}
