//! Whatever is served, as the course of serving uses it.

ghost use Rattle.std.specs.Prelude.{◌≡◌, ℕ, Bool, List, [], ◌∷◌, OnOk, OnErr, IfSome, IsNone, true};
ghost use Rattle.usb_base.specs.Incoming.{HasCome};
ghost use Rattle.bridge_run.specs.events.Events.{PastLinkEvent, event_of, is_quiet};
ghost use Rattle.bridge_run.specs.served.Sends.{SendsAll, SendsPart};
ghost use Rattle.bridge_run.specs.served.Taking.{TakesCome};

use crate::events::event::LinkEvent;
use crate::events::sent::Sent;
use usb_base::{Incoming, Memory, Side};

/// What is served between links: it takes events, and says what each sends to both sides and which sides it refuses.
pub trait Served {
    ghost use Rattle.bridge_run.specs.events.Prescribed.{Prescribed};

    /// What its making was given.
    ghost First: { Type 0 };

    /// What its events send.
    ghost sends: { First → Prescribed };

    /// It stands for these events, the latest first.
    ghost stands: { First → Self → List PastLinkEvent → Type 0 };

    /// Behind these events, the latest first, memory runs out within the next one, by when that has sent so much to the
    /// client, and so much to the host.
    ghost runs_out: { First → List PastLinkEvent → PastLinkEvent → List ℕ → List ℕ → Type 0 };

    /// Whether memory may be wanting at an event.
    ghost takes_memory: { PastLinkEvent → Bool };

    /// Takes the next event, and appends what that sends. A quiet client is no ground to refuse a side, or to let the
    /// client go. For want of memory what was sent by then is there. `sent` has no bytes for the client before, so that
    /// these can be handed over as they are.
    fn take(&mut self, event: LinkEvent, sent: &mut Sent) -> Result<(), Memory>
        requires { sent.old.to_client ≡ [] }
        ensures stands { OnOk result ((first : First) (past : List PastLinkEvent) → stands first self.old past → stands first self.new (event_of event.entry ∷ past)) }
        ensures sends { OnOk result ((first : First) (past : List PastLinkEvent) → stands first self.old past → SendsAll (sends first) past (event_of event.entry) sent.old sent.new) }
        ensures stops { OnErr result ((first : First) (past : List PastLinkEvent) → stands first self.old past → SendsPart (runs_out first) (sends first) past (event_of event.entry) sent.old sent.new) }
        ensures quiet { OnOk result (is_quiet (event_of event.entry) ≡ true → sent.new.refusals ≡ sent.old.refusals) }
        ensures stays { OnOk result (is_quiet (event_of event.entry) ≡ true → sent.new.lets_go ≡ sent.old.lets_go) }
        ensures wants { OnErr result (takes_memory (event_of event.entry) ≡ true) };

    /// Has the next piece of a side come straight into its memory, at most `limit` bytes, and takes it as `take` takes
    /// an event. `None` where it can't: then nothing was read.
    fn take_from<I: Incoming>(
        &mut self,
        side: Side,
        limit: usize,
        incoming: &mut I,
        sent: &mut Sent,
    ) -> Option<Result<(), Memory>>
        requires ready { I.can_read incoming.old limit }
        requires sent { sent.old.to_client ≡ [] }
        ensures came { IfSome result (λ taken. (count : ℕ) × (came : HasCome I.read_gives limit count incoming.old incoming.new)
            × TakesCome stands runs_out sends side taken count came.room self.old self.new sent.old sent.new) }
        ensures none { IsNone result → (self.new ≡ self.old) × (incoming.new ≡ incoming.old) × (sent.new ≡ sent.old) };
}
