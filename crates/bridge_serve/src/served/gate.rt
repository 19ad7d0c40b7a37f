//! The gate as what is served.

ghost use Rattle.std.specs.Prelude.{◌≡◌, ℕ, List, [], Some, Ok, false, OnOk, OnErr};
ghost use Rattle.std.specs.List.{list_any};
ghost use Rattle.gate_core.specs.step.Stands.{GateStands};
ghost use Rattle.gate_history.specs.step.Events.{PastEvent};
ghost use Rattle.bridge_run.specs.events.Events.{PastLinkEvent};
ghost use Rattle.bridge_serve.specs.served.Gate.{gate_event, gate_events, gate_sends, is_loss};
ghost use Rattle.bridge_serve.specs.served.GateStops.{gate_runs_out};
ghost use Rattle.bridge_serve.specs.inner.Gated.{GateTakes};
ghost use Rattle.bridge_run.specs.served.Sends.{SendsPart};
ghost use Rattle.bridge_run.specs.served.Taking.{TakesAll};

use crate::served::after_loss::AfterLoss;
use bridge_run::{LinkEvent, Sent, Served};
use gate_core::Gate;
use gate_history::{Event, Note, Notes, push_refusals};
use usb_base::{Incoming, Memory, Side};

/// A gate, and what becomes of a client whose device is lost.
#[derive(Drop)]
pub struct Gateway {
    pub(crate) gate: Gate,
    pub(crate) after_loss: AfterLoss,
}

impl Served for Gateway {
    ghost use Rattle.std.specs.Prelude.{is_some};
    ghost use Rattle.bridge_serve.specs.declared.served.after_loss.AfterLoss.{AfterLoss as Setting};

    // what becomes of a client whose device is lost, and the first id
    ghost First = { Setting × ℕ };

    ghost sends = { λ first. gate_sends first.0 first.1 };

    ghost stands = { λ first gateway events. (gateway.after_loss ≡ first.0) × GateStands first.1 gateway.gate (gate_events events) };

    ghost runs_out = { λ first. gate_runs_out first.1 };

    // none at an event that is none to a gate
    ghost takes_memory = { λ e. is_some (gate_event e) };

    fn take(&mut self, event: LinkEvent, sent: &mut Sent) -> Result<(), Memory> {
        // That a client has come, or is quiet, is nothing to a gate.
        let told = match event {
            LinkEvent::ClientComes | LinkEvent::ClientQuiet => return Ok(()),
            LinkEvent::SidePiece(Side::Client, bytes) => Event::ClientPiece(bytes),
            LinkEvent::SidePiece(Side::Host, bytes) => Event::HostPiece(bytes),
            LinkEvent::SideEnd(Side::Client) => Event::ClientEnd,
            LinkEvent::SideEnd(Side::Host) => Event::HostEnd,
        };
        let taken = self.gate.take(told, &mut sent.to_client, &mut sent.to_host);
        self.tell(taken, sent)
    }

    fn take_from<I: Incoming>(
        &mut self,
        side: Side,
        limit: usize,
        incoming: &mut I,
        sent: &mut Sent,
    ) -> Option<Result<(), Memory>> {
        let taken = self.gate.take_from(
            side,
            limit,
            incoming,
            &mut sent.to_client,
            &mut sent.to_host,
        )?;
        Some(self.tell(taken, sent))
    }
}

impl Gateway {
    /// Adds to what is sent which sides an event refuses, and whether it lets the client go, as the gate's notes of it
    /// tell. Where memory ran out within the event nothing is added.
    fn tell(&self, taken: Result<Notes, Memory>, sent: &mut Sent) -> Result<(), Memory>
        ensures takes { OnOk result ((first : ℕ) (past : List PastLinkEvent) (e : PastLinkEvent) (told : PastEvent) (client host : List ℕ) → gate_event e ≡ Some told
            → GateTakes taken first self.now.gate (gate_events past) told client sent.old.to_client host sent.old.to_host
            → TakesAll (λ events. GateStands first self.now.gate (gate_events events)) (gate_sends self.now.after_loss first) past e (record sent.old { to_client = client; to_host = host }) sent.new) }
        ensures stops { OnErr result ((first : ℕ) (past : List PastLinkEvent) (e : PastLinkEvent) (told : PastEvent) (client host : List ℕ) → gate_event e ≡ Some told
            → GateTakes taken first self.now.gate (gate_events past) told client sent.old.to_client host sent.old.to_host
            → SendsPart (gate_runs_out first) (gate_sends self.now.after_loss first) past e (record sent.old { to_client = client; to_host = host }) sent.new) }
        ensures nothing { taken ≡ Ok [] → (result ≡ Ok tt) × (sent.new ≡ sent.old) }
    {
        let notes = taken?;
        sent.lets_go |= lets_go(self.after_loss, &notes);
        push_refusals(&notes, &mut sent.refusals)
    }
}

/// Whether the client is let go where these are the notes of an event.
fn lets_go(after_loss: AfterLoss, notes: &Notes) -> bool
    ensures keep { after_loss ≡ AfterLoss.Keep → result ≡ false }
    ensures close { after_loss ≡ AfterLoss.Close → result ≡ list_any is_loss notes.now }
{
    match after_loss {
        AfterLoss::Keep => false,
        AfterLoss::Close => has_loss(notes),
    }
}

/// Whether the notes tell that the imported device is lost.
fn has_loss(notes: &Notes) -> bool
    ensures { result ≡ list_any is_loss notes.now }
{
    notes
        .as_slice()
        .iter()
        .any(|note| matches!(note, Note::DeviceGone))
}
