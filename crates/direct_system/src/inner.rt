//! What a system keeps, and how steps change it.

ghost use Rattle.std.specs.Prelude.{◌≡◌, ◌++◌, [], List as ListOf, None, is_some, IfOk, OnOk, OnErr, IsErr, take, drop, true};
ghost use Rattle.std.specs.List.{flat_map};
ghost use Rattle.gate_history.specs.step.Events.{PastEvent, HostPiece, event_of};
ghost use Rattle.gate_core.specs.step.Stands.{GateStands};
ghost use Rattle.redir_host.specs.step.Acts.{Act, Piece, Perform, Offer, Unplug};
ghost use Rattle.redir_host.specs.step.Stands.{HostStands};
ghost use Rattle.direct_run.specs.Steps.{PastStep, step_of};
ghost use Rattle.direct_run.specs.World.{first_id, sent_to_host, sent_to_gate, nothing_yet};
ghost use Rattle.direct_system.specs.Stands.{SystemStands, TakesStep};
ghost use Rattle.direct_system.specs.inner.Views.{kept_of};
ghost use Rattle.gate_history.specs.write.Refusals.{refusal_in};
ghost use Rattle.direct_run.specs.Noted.{item_of, named};
ghost use Rattle.direct_system.specs.inner.Doing.{DoesEvent, DoesAct};
ghost use Rattle.direct_run.specs.Trace.{untold};

use crate::notes::{
    push_all, push_host_items, push_items, push_offered, push_performed, push_submits,
};
use direct_run::{Items, Step, Submits, Told};
use gate_core::Gate;
use gate_history::{Event, Notes, push_refusals};
use model_device::Gadget;
use redir_host::HostCore;
use std::alloc::Global;
use usb_base::{Bytes, EpAddr, List, Memory};

/// The gateway, the host, and the bytes between them.
#[derive(Drop)]
pub struct Inner<G: Gadget> {
    pub alloc: Global,
    pub gate: Gate,
    pub host: HostCore<G>,
    /// The bytes on the wire to the host, and to the gateway.
    pub to_host: Bytes,
    pub to_gate: Bytes,
    pub trace: Items,
    pub submits: Submits,
    /// What was told as memory ran out in an earlier step.
    pub want: Option<Memory>,
}

impl<G: Gadget> Inner<G> {
    /// The system of a device that was just plugged in. It tells the hellos of both, where nothing was told before.
    #[tactic(auto, using(direct_run::proofs::Knowing::known_first))]
    pub fn make(alloc: Global, gadget: G, told: &mut Told) -> Result<Inner<G>, Memory>
        requires { told.old ≡ untold }
        ensures made { IfOk result (λ inner. SystemStands G.meaning gadget (kept_of inner) []) }
        ensures told { OnOk result (told.new ≡ record told.old { to_host = sent_to_host nothing_yet; from_host = sent_to_gate G.meaning gadget nothing_yet }) }
    {
        let mut inner = Inner::silent(alloc, gadget, told)?;
        inner.carry(told)?;
        Ok(inner)
    }

    /// The same with nothing on the wires.
    fn silent(alloc: Global, gadget: G, told: &mut Told) -> Result<Inner<G>, Memory>
        requires { told.old ≡ untold }
        ensures gate { IfOk result (λ inner. GateStands first_id inner.gate []) }
        ensures host { IfOk result (λ inner. HostStands G.meaning gadget inner.host []) }
        ensures wires { IfOk result (λ inner. (inner.to_host ≡ []) × (inner.to_gate ≡ [])) }
        ensures lists { IfOk result (λ inner. (inner.trace ≡ []) × (inner.submits ≡ [])) }
        ensures works { IfOk result (λ inner. inner.want ≡ None) }
        ensures told { OnOk result (told.new ≡ record told.old { to_host = sent_to_host nothing_yet; from_host = sent_to_gate G.meaning gadget nothing_yet }) }
    {
        let gate = Gate::make(alloc, 1, &mut told.to_host)?;
        let host = HostCore::make(alloc, gadget, &mut told.from_host)?;
        Ok(Inner {
            alloc,
            gate,
            host,
            to_host: Bytes::new(alloc),
            to_gate: Bytes::new(alloc),
            trace: List::new(alloc),
            submits: List::new(alloc),
            want: None,
        })
    }

    /// Puts the hellos on the wires.
    fn carry(&mut self, hellos: &Told) -> Result<(), Memory>
        ensures { OnOk result (self.new ≡ record self.old { to_host = self.old.to_host ++ hellos.now.to_host; to_gate = self.old.to_gate ++ hellos.now.from_host }) }
    {
        self.to_host.append(hellos.to_host.as_slice())?;
        self.to_gate.append(hellos.from_host.as_slice())
    }

    /// Does a step. Once memory has run out it does nothing.
    pub fn step(&mut self, step: &Step) -> Result<Told, Memory>
        ensures takes { IfOk result (λ told. (first : G) (past : ListOf PastStep) → SystemStands G.meaning first (kept_of self.old) past
            → TakesStep G.meaning first (kept_of self.new) past (step_of step.now) told) }
        ensures fails { OnErr result (is_some self.new.want ≡ true) }
        ensures failed { is_some self.old.want ≡ true → IsErr result × (self.new ≡ self.old) }
    {
        if let Some(memory) = self.want {
            return Err(memory);
        }
        let mut told = Told::new(self.alloc);
        match self.take(step, &mut told) {
            Ok(()) => Ok(told),
            Err(memory) => {
                self.want = Some(memory);
                Err(memory)
            }
        }
    }

    /// The same, where memory has not run out. Nothing is told yet, here and in each call below but `tell`.
    fn take(&mut self, step: &Step, told: &mut Told) -> Result<(), Memory>
        requires { told.old ≡ untold }
        ensures { OnOk result ((first : G) (past : ListOf PastStep) → SystemStands G.meaning first (kept_of self.old) past
            → TakesStep G.meaning first (kept_of self.new) past (step_of step.now) told.new) }
    {
        match *step {
            Step::Client(bytes) => self.event(Event::ClientPiece(bytes), told),
            Step::ClientEnd => self.event(Event::ClientEnd, told),
            Step::ToHost(count) => self.carry_to_host(count, told),
            Step::ToGate(count) => self.carry_to_gate(count, told),
            Step::Perform(ep) => self.perform(ep, told),
            Step::Offer(ep) => self.offer(ep, told),
            Step::Unplug => self.unplug(told),
        }
    }

    /// So many bytes get to the host, or all there are.
    fn carry_to_host(&mut self, count: u32, told: &mut Told) -> Result<(), Memory>
        requires { told.old ≡ untold }
        ensures { OnOk result ((first : G) (past : ListOf Act) → HostStands G.meaning first self.old.host past
            → DoesAct G.meaning first (record (kept_of self.old) { to_host = drop count self.old.to_host }) (kept_of self.new) past (Piece (take count self.old.to_host)) told.new) }
    {
        let piece = take_front(self.alloc, &mut self.to_host, count)?;
        self.hear(piece.as_slice(), told)
    }

    /// So many bytes get to the gateway, or all there are.
    fn carry_to_gate(&mut self, count: u32, told: &mut Told) -> Result<(), Memory>
        requires { told.old ≡ untold }
        ensures { OnOk result ((past : ListOf PastEvent) → GateStands first_id self.old.gate past
            → DoesEvent (record (kept_of self.old) { to_gate = drop count self.old.to_gate }) (kept_of self.new) past (HostPiece (take count self.old.to_gate)) told.new) }
    {
        let piece = take_front(self.alloc, &mut self.to_gate, count)?;
        self.event(Event::HostPiece(piece.as_slice()), told)
    }

    /// Has the gateway take an event.
    fn event(&mut self, event: Event, told: &mut Told) -> Result<(), Memory>
        requires { told.old ≡ untold }
        ensures { OnOk result ((past : ListOf PastEvent) → GateStands first_id self.old.gate past
            → DoesEvent (kept_of self.old) (kept_of self.new) past (event_of event.entry) told.new) }
    {
        let notes = self
            .gate
            .take(event, &mut told.to_client, &mut told.to_host)?;
        self.to_host.append(told.to_host.as_slice())?;
        self.tell(&notes, told)
    }

    /// Tells what the gateway notes of an event, and keeps it.
    fn tell(&mut self, notes: &Notes, told: &mut Told) -> Result<(), Memory>
        ensures { OnOk result ((told.new ≡ record told.old { items = told.old.items ++ flat_map item_of notes.now; refusals = told.old.refusals ++ flat_map refusal_in notes.now })
            × (self.new ≡ record self.old { trace = self.old.trace ++ told.new.items; submits = self.old.submits ++ flat_map named notes.now })) }
    {
        push_items(notes, &mut told.items)?;
        push_refusals(notes, &mut told.refusals)?;
        push_submits(notes, &mut self.submits)?;
        push_all(&told.items, &mut self.trace)
    }

    /// Has the host take a piece of the gateway's bytes.
    fn hear(&mut self, bytes: &[u8], told: &mut Told) -> Result<(), Memory>
        requires { told.old ≡ untold }
        ensures { OnOk result ((first : G) (past : ListOf Act) → HostStands G.meaning first self.old.host past
            → DoesAct G.meaning first (kept_of self.old) (kept_of self.new) past (Piece bytes.now) told.new) }
    {
        let notes = self.host.take(bytes, &mut told.from_host)?;
        self.to_gate.append(told.from_host.as_slice())?;
        push_host_items(&notes, &self.submits, &mut told.items)?;
        push_all(&told.items, &mut self.trace)
    }

    /// Has the device perform the first request of an endpoint.
    fn perform(&mut self, ep: EpAddr, told: &mut Told) -> Result<(), Memory>
        requires { told.old ≡ untold }
        ensures { OnOk result ((first : G) (past : ListOf Act) → HostStands G.meaning first self.old.host past
            → DoesAct G.meaning first (kept_of self.old) (kept_of self.new) past (Perform ep) told.new) }
    {
        let performed = self.host.perform(ep, &mut told.from_host)?;
        self.to_gate.append(told.from_host.as_slice())?;
        push_performed(performed, ep, &self.submits, &mut told.items)?;
        push_all(&told.items, &mut self.trace)
    }

    /// Offers the gateway what the device has for an endpoint.
    fn offer(&mut self, ep: EpAddr, told: &mut Told) -> Result<(), Memory>
        requires { told.old ≡ untold }
        ensures { OnOk result ((first : G) (past : ListOf Act) → HostStands G.meaning first self.old.host past
            → DoesAct G.meaning first (kept_of self.old) (kept_of self.new) past (Offer ep) told.new) }
    {
        let offered = self.host.offer(ep, &mut told.from_host)?;
        self.to_gate.append(told.from_host.as_slice())?;
        push_offered(offered, ep, &mut told.items)?;
        push_all(&told.items, &mut self.trace)
    }

    /// Takes the device away.
    fn unplug(&mut self, told: &mut Told) -> Result<(), Memory>
        requires { told.old ≡ untold }
        ensures { OnOk result ((first : G) (past : ListOf Act) → HostStands G.meaning first self.old.host past
            → DoesAct G.meaning first (kept_of self.old) (kept_of self.new) past Unplug told.new) }
    {
        self.host.unplug(&mut told.from_host)?;
        self.to_gate.append(told.from_host.as_slice())
    }
}

/// Takes so many bytes off the front of a wire, or all there are.
fn take_front(alloc: Global, wire: &mut Bytes, count: u32) -> Result<Bytes, Memory>
    ensures piece { IfOk result (λ piece. piece ≡ take count wire.old) }
    ensures rest { OnOk result (wire.new ≡ drop count wire.old) }
{
    let count = wire.len().min(count as usize);
    let mut piece = Bytes::new(alloc);
    piece.append(&wire.as_slice()[..count])?;
    wire.skip(count);
    Ok(piece)
}
