//! A modelled device, lent to a guest, as what is served.

ghost use Rattle.std.specs.Prelude.{◌≡◌, ◌++◌, ◌||◌, not, [], true, if◌then◌else◌, List as ListOf, OnOk, OnErr, IfOk};
ghost use Rattle.std.specs.List.{flat_map, list_any};
ghost use Rattle.redir_host.specs.step.Acts.{Act};
ghost use Rattle.redir_host.specs.step.Machine.{is_refusal};
ghost use Rattle.redir_host.specs.step.Stands.{DoesAct, HostStands, StopsInAct};
ghost use Rattle.usb_base.specs.declared.side.Side.TheVariants.{Client};
ghost use Rattle.usb_base.specs.Lists.{is_empty};
ghost use Rattle.bridge_run.specs.events.Events.{SidePiece, event_of, is_quiet};
ghost use Rattle.bridge_serve.specs.served.Lent.{each, used, acts_behind, is_coming, refused_by, refusal_in};
ghost use Rattle.bridge_serve.specs.inner.Lending.{Acts, StopsIn, Halts, IsLent, act_of};

use bridge_run::{LinkEvent, Sent, Served};
use model_device::Gadget;
use redir_host::{HostCore, HostNote, HostNotes};
use std::alloc::Global;
use std::mem;
use usb_base::{Bytes, EpAddr, Incoming, List, Memory, Refusal, Side};

/// What is done with an endpoint: its first request is performed, or its stream is offered a packet.
#[derive(Clone, Copy)]
pub enum Use {
    Perform,
    Offer,
}

/// The host of a device, and what it has sent.
#[derive(Drop)]
pub struct Lent<G: Gadget> {
    pub(crate) core: HostCore<G>,
    /// The guest has come.
    pub(crate) has_come: bool,
    /// What was sent and isn't handed on yet.
    pub(crate) waiting: Bytes,
}

impl<G: Gadget> Lent<G> {
    /// The host of a device that was just plugged in. Its hello waits for the guest.
    pub fn make(alloc: Global, gadget: G) -> Result<Lent<G>, Memory>
        ensures { IfOk result (λ lent. IsLent G.meaning gadget lent []) }
    {
        let mut waiting = Bytes::new(alloc);
        let core = HostCore::make(alloc, gadget, &mut waiting)?;
        Ok(Lent {
            core,
            has_come: false,
            waiting,
        })
    }

    /// Does with the device what an event asks.
    fn act(&mut self, event: LinkEvent, refusals: &mut List<Refusal>) -> Result<(), Memory>
        ensures acts { OnOk result ((first : G) (past : ListOf Act) → HostStands G.meaning first self.old.core past
            → Acts G.meaning first self.new.core past (acts_behind G.meaning first past (event_of event.entry)) self.old.waiting self.new.waiting) }
        ensures refusals { OnOk result ((first : G) (past : ListOf Act) → HostStands G.meaning first self.old.core past
            → refusals.new ≡ refusals.old ++ refused_by G.meaning first past (event_of event.entry)) }
        ensures stops { OnErr result ((first : G) (past : ListOf Act) → HostStands G.meaning first self.old.core past
            → Halts G.meaning first past (acts_behind G.meaning first past (event_of event.entry)) (refused_by G.meaning first past (event_of event.entry)) self.old.waiting self.new.waiting) }
        ensures come { self.new.has_come ≡ (is_coming (event_of event.entry) || self.old.has_come) }
        ensures quiet { OnOk result (is_quiet (event_of event.entry) ≡ true → refusals.new ≡ refusals.old) }
    {
        match event {
            LinkEvent::ClientComes => {
                self.has_come = true;
                Ok(())
            }
            LinkEvent::SidePiece(Side::Client, bytes) => {
                hear(&mut self.core, bytes, refusals, &mut self.waiting)
            }
            LinkEvent::ClientQuiet => use_device(&mut self.core, &mut self.waiting),
            LinkEvent::SidePiece(Side::Host, _) | LinkEvent::SideEnd(_) => Ok(()),
        }
    }

    /// Hands over what waits, once the guest has come. No byte of it is copied.
    fn hand_on(&mut self, to_client: &mut Bytes)
        requires { to_client.old ≡ [] }
        ensures sent { to_client.new ≡ (if self.old.has_come then self.old.waiting else []) }
        ensures kept { self.new ≡ record self.old { waiting = if self.old.has_come then [] else self.old.waiting } }
    {
        if self.has_come {
            to_client.clear();
            mem::swap(&mut self.waiting, to_client);
        }
    }
}

impl<G: Gadget> Served for Lent<G> {
    ghost use Rattle.std.specs.Prelude.{true};
    ghost use Rattle.bridge_serve.specs.served.Lent.{lent_sends};
    ghost use Rattle.bridge_serve.specs.served.LentStops.{LentStops};
    ghost use Rattle.bridge_serve.specs.inner.Lending.{IsLent};

    // the device's first state
    ghost First = { G };

    ghost sends = { λ first. lent_sends G.meaning first };

    ghost stands = { λ first lent events. IsLent G.meaning first lent events };

    ghost runs_out = { λ first. LentStops G.meaning first };

    // a quiet guest's device is used, too
    ghost takes_memory = { λ e. true };

    fn take(&mut self, event: LinkEvent, sent: &mut Sent) -> Result<(), Memory> {
        let acted = self.act(event, &mut sent.refusals);
        self.hand_on(&mut sent.to_client);
        acted
    }

    /// The host of a device takes its bytes from a buffer.
    fn take_from<I: Incoming>(
        &mut self,
        _side: Side,
        _limit: usize,
        _incoming: &mut I,
        _sent: &mut Sent,
    ) -> Option<Result<(), Memory>> {
        None
    }
}

/// Takes a piece of the guest's bytes, and then, unless it is refused, uses the device.
fn hear<G: Gadget>(
    core: &mut HostCore<G>,
    bytes: &[u8],
    refusals: &mut List<Refusal>,
    out: &mut Bytes,
) -> Result<(), Memory>
    ensures acts { OnOk result ((first : G) (past : ListOf Act) → HostStands G.meaning first core.old past
        → Acts G.meaning first core.new past (acts_behind G.meaning first past (SidePiece Client bytes.now)) out.old out.new) }
    ensures refusals { OnOk result ((first : G) (past : ListOf Act) → HostStands G.meaning first core.old past
        → refusals.new ≡ refusals.old ++ refused_by G.meaning first past (SidePiece Client bytes.now)) }
    ensures stops { OnErr result ((first : G) (past : ListOf Act) → HostStands G.meaning first core.old past
        → Halts G.meaning first past (acts_behind G.meaning first past (SidePiece Client bytes.now)) (refused_by G.meaning first past (SidePiece Client bytes.now)) out.old out.new) }
{
    let notes = core.take(bytes, out)?;
    push_refusals(&notes, refusals)?;
    if has_refusal(&notes) {
        return Ok(());
    }
    use_device(core, out)
}

/// Performs the first request of each endpoint, and then offers the streams of all IN endpoints.
fn use_device<G: Gadget>(core: &mut HostCore<G>, out: &mut Bytes) -> Result<(), Memory>
    ensures acts { OnOk result ((first : G) (past : ListOf Act) → HostStands G.meaning first core.old past
        → Acts G.meaning first core.new past (used past) out.old out.new) }
    ensures stops { OnErr result ((first : G) (past : ListOf Act) → HostStands G.meaning first core.old past
        → StopsIn G.meaning first past (used past) out.old out.new) }
{
    use_each(core, Use::Perform, &EpAddr::all_out(), out)?;
    use_each(core, Use::Perform, &EpAddr::all_in(), out)?;
    use_each(core, Use::Offer, &EpAddr::all_in(), out)
}

/// Uses each of these endpoints.
fn use_each<G: Gadget>(
    core: &mut HostCore<G>,
    how: Use,
    eps: &[EpAddr],
    out: &mut Bytes,
) -> Result<(), Memory>
    ensures acts { OnOk result ((first : G) (past : ListOf Act) → HostStands G.meaning first core.old past
        → Acts G.meaning first core.new past (each (act_of how) eps.now past) out.old out.new) }
    ensures stops { OnErr result ((first : G) (past : ListOf Act) → HostStands G.meaning first core.old past
        → StopsIn G.meaning first past (each (act_of how) eps.now past) out.old out.new) }
{
    for ep in eps {
        use_endpoint(core, how, *ep, out)?;
    }
    Ok(())
}

/// Uses an endpoint.
fn use_endpoint<G: Gadget>(
    core: &mut HostCore<G>,
    how: Use,
    ep: EpAddr,
    out: &mut Bytes,
) -> Result<(), Memory>
    ensures does { OnOk result ((first : G) (past : ListOf Act) → HostStands G.meaning first core.old past
        → DoesAct G.meaning first core.new past (act_of how ep) out.old out.new) }
    ensures stops { OnErr result ((first : G) (past : ListOf Act) → HostStands G.meaning first core.old past
        → StopsInAct G.meaning first past (act_of how ep) out.old out.new) }
{
    match how {
        Use::Perform => {
            core.perform(ep, out)?;
        }
        Use::Offer => {
            core.offer(ep, out)?;
        }
    }
    Ok(())
}

/// Whether a refusal is among the notes.
fn has_refusal(notes: &HostNotes) -> bool
    ensures { result ≡ list_any is_refusal notes.now }
{
    notes
        .as_slice()
        .iter()
        .any(|note| matches!(note, HostNote::Refused { .. }))
}

/// Appends the refusals among the notes, which are of the client's side.
fn push_refusals(notes: &HostNotes, refusals: &mut List<Refusal>) -> Result<(), Memory>
    ensures pushed { OnOk result (refusals.new ≡ refusals.old ++ flat_map refusal_in notes.now) }
    ensures wants { OnErr result (not (is_empty (flat_map refusal_in notes.now)) ≡ true) }
{
    for note in notes.as_slice() {
        if let HostNote::Refused { place, reason } = *note {
            refusals.push(Refusal {
                side: Side::Client,
                place,
                reason,
                kept: None,
            })?;
        }
    }
    Ok(())
}
