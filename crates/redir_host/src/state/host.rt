//! The host of a device: what it keeps.

ghost use Rattle.std.specs.Prelude.{◌≡◌};
ghost use Rattle.redir_host.specs.step.Machine.{first_host};
ghost use Rattle.redir_host.specs.state.Sound.{IsSound};

use crate::state::queue::Queue;
use crate::state::running::Streams;
use redir_wire::RedirState;
use std::alloc::Global;

/// The device, and what its guest has asked of it.
#[derive(Drop)]
pub struct Host<G> {
    pub gadget: G,
    /// What the guest's hello has told.
    pub guest: RedirState,
    pub queue: Queue,
    /// A reset came for which no request has come yet: the next one of endpoint 0 is marked.
    pub resets_next: bool,
    /// The streams that run, at most one of an endpoint.
    pub running: Streams,
    /// The guest has no device any more.
    pub unplugged: bool,
}

impl<G> Host<G> {
    /// The host of a device that was just plugged in.
    pub fn new(alloc: Global, gadget: G) -> Self
        ensures host { result ≡ first_host gadget }
        ensures sound { IsSound result }
    {
        Host {
            gadget,
            guest: RedirState::start(),
            queue: Queue::new(alloc),
            resets_next: false,
            running: Streams::new(alloc),
            unplugged: false,
        }
    }
}
