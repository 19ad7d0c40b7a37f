//! What an event sends.

ghost use Rattle.std.specs.Prelude.{◌≡◌, ◌++◌, ◌||◌, not, [], OnOk, OnErr, false, true};
ghost use Rattle.usb_base.specs.declared.side.Side.TheVariants.{Client};
ghost use Rattle.std.specs.List.{flat_map};
ghost use Rattle.usb_base.specs.Lists.{is_empty};
ghost use Rattle.usb_base.specs.Refusal.{refusal_line};
ghost use Rattle.bridge_run.specs.events.Prescribed.{refuses as among, first_of};
ghost use Rattle.bridge_run.specs.written.Recorded.{sends_any};

use std::alloc::Global;
use usb_base::{Bytes, List, Memory, Refusal, Side};

/// The bytes that go to each side, the sides that are refused, and whether the client is let go.
#[derive(Drop)]
pub struct Sent {
    pub to_client: Bytes,
    pub to_host: Bytes,
    pub refusals: List<Refusal>,
    /// The client's link is to be closed behind what is sent.
    pub lets_go: bool,
}

impl Sent {
    /// Nothing yet, which takes no memory.
    pub(crate) fn new(alloc: Global) -> Self
        ensures client { result.to_client ≡ [] }
        ensures host { result.to_host ≡ [] }
        ensures refusals { result.refusals ≡ [] }
        ensures lets_go { result.lets_go ≡ false }
    {
        Sent {
            to_client: Bytes::new(alloc),
            to_host: Bytes::new(alloc),
            refusals: List::new(alloc),
            lets_go: false,
        }
    }

    /// Nothing again. The memory is kept with the bytes that stand in it: so a stream that takes it can lend it.
    pub(crate) fn clear(&mut self)
        ensures client { self.new.to_client ≡ [] }
        ensures host { self.new.to_host ≡ [] }
        ensures refusals { self.new.refusals ≡ [] }
        ensures lets_go { self.new.lets_go ≡ false }
    {
        self.to_client.advance(self.to_client.len());
        self.to_host.advance(self.to_host.len());
        self.refusals.clear();
        self.lets_go = false;
    }

    /// Whether bytes go to a side, a side is refused, or the client is let go.
    pub(crate) fn is_any(&self) -> bool
        ensures { result ≡ sends_any self.now.to_client self.now.to_host self.now.refusals self.now.lets_go }
    {
        self.has_bytes() || !self.refusals.is_empty() || self.lets_go
    }

    /// Whether bytes go to a side.
    pub(crate) fn has_bytes(&self) -> bool
        ensures { result ≡ (not (is_empty self.now.to_client) || not (is_empty self.now.to_host)) }
    {
        !self.to_client.is_empty() || !self.to_host.is_empty()
    }

    /// Whether the side is refused.
    pub(crate) fn refuses(&self, side: Side) -> bool
        ensures { result ≡ among side self.now.refusals }
    {
        self.refusals.as_slice().iter().any(|r| r.side == side)
    }

    /// Whether the client's link is to be closed.
    pub(crate) fn drops_client(&self) -> bool
        ensures { result ≡ (among Client self.now.refusals || self.now.lets_go) }
    {
        self.refuses(Side::Client) || self.lets_go
    }

    /// The first refusal.
    pub(crate) fn refusal(&self) -> Option<Refusal>
        ensures { result ≡ first_of self.now.refusals }
    {
        self.refusals.as_slice().first().copied()
    }

    /// Appends the lines of the refusals.
    pub(crate) fn push_lines(&self, alloc: Global, text: &mut Bytes) -> Result<(), Memory>
        ensures written { OnOk result (text.new ≡ text.old ++ flat_map refusal_line self.now.refusals) }
        ensures wants { OnErr result (not (is_empty self.now.refusals) ≡ true) }
    {
        for refusal in self.refusals.as_slice() {
            refusal.line(alloc, text)?;
        }
        Ok(())
    }
}
