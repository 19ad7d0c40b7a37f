//! What is kept of the course of serving.

ghost use Rattle.std.specs.Prelude.{◌≡◌, ◌-◌, ◌<◌, true};
ghost use Rattle.bridge_run.specs.inner.Keeping.{begun, up_of, with_down, refusing, is_last as is_last_of, Settles, Rests};

use crate::course::serve_end::ServeEnd;
use crate::events::sent::Sent;
use usb_base::{Refusal, Side};

/// Which links are up, and how long it goes on.
#[derive(Clone, Copy)]
pub struct Rounds {
    pub client_up: bool,
    pub host_up: bool,
    /// Something has come in this round.
    pub busy: bool,
    /// How many more rounds in a row may bring nothing, and how many may at first.
    pub waits: u64,
    pub idle: u64,
    /// How many more bytes may be taken, where each link that comes counts as one.
    pub left: u64,
    /// The first refusal.
    pub refused: Option<Refusal>,
}

impl Rounds {
    /// No link is up, and nothing has come. `idle` rounds in a row may bring nothing, and `budget` bytes may be taken.
    pub fn new(idle: u64, budget: u64) -> Self
        ensures { result ≡ begun idle budget }
    {
        Rounds {
            client_up: false,
            host_up: false,
            busy: false,
            waits: idle,
            idle,
            left: budget,
            refused: None,
        }
    }

    /// Whether the side's link is up.
    pub fn is_up(&self, side: Side) -> bool
        ensures { result ≡ up_of side self.now }
    {
        match side {
            Side::Client => self.client_up,
            Side::Host => self.host_up,
        }
    }

    /// Whether no link is up, or all is taken that may be.
    pub fn is_last(&self) -> bool
        ensures { result ≡ is_last_of self.now }
    {
        (!self.client_up && !self.host_up) || self.left == 0
    }

    /// The client's link has come.
    pub fn come(&mut self)
        ensures { self.new ≡ record self.old { client_up = true; busy = true; left = self.old.left - 1 } }
    {
        self.client_up = true;
        self.busy = true;
        self.left = self.left.saturating_sub(1);
    }

    /// So many bytes have come.
    pub fn take(&mut self, n: usize)
        ensures { self.new ≡ record self.old { busy = true; left = self.old.left - n } }
    {
        self.busy = true;
        self.left = self.left.saturating_sub(n as u64);
    }

    /// The side's link has ended.
    pub fn end(&mut self, side: Side)
        ensures { self.new ≡ record (with_down side self.old) { busy = true } }
    {
        self.busy = true;
        match side {
            Side::Client => self.client_up = false,
            Side::Host => self.host_up = false,
        }
    }

    /// The sides that are refused go down, and a client that is let go, and the first refusal of all is kept.
    pub fn refuse(&mut self, sent: &Sent)
        ensures { self.new ≡ refusing sent.now.refusals sent.now.lets_go self.old }
    {
        self.client_up &= !sent.drops_client();
        self.host_up &= !sent.refuses(Side::Host);
        self.refused = self.refused.or(sent.refusal());
    }

    /// Whether it goes on after a link or an event.
    pub fn settle(&self) -> Result<(), ServeEnd>
        ensures { Settles result self.now }
    {
        if !self.client_up && !self.host_up {
            return Err(ServeEnd::Ended {
                refused: self.refused,
            });
        }
        if self.left == 0 {
            return Err(ServeEnd::Spent);
        }
        Ok(())
    }

    /// The end of a round.
    pub fn rest(&mut self) -> Result<(), ServeEnd>
        requires { 0 < self.old.waits }
        ensures { Rests result self.old self.new }
    {
        if self.busy {
            self.busy = false;
            self.waits = self.idle;
            return Ok(());
        }
        self.waits -= 1;
        if self.waits == 0 {
            return Err(ServeEnd::Idle);
        }
        Ok(())
    }
}
