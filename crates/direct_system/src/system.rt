//! A gateway and a modelled device on two wires.

ghost use Rattle.std.specs.Prelude.{◌≡◌, [], List, IfOk, OnErr, IsErr};
ghost use Rattle.gate_history.specs.step.History.{history};
ghost use Rattle.gate_history.specs.write.All.{counts_of};
ghost use Rattle.direct_run.specs.Steps.{PastStep, step_of};
ghost use Rattle.direct_run.specs.World.{first_id, course};
ghost use Rattle.direct_run.specs.Trace.{told_first, trace as trace_of};
ghost use Rattle.direct_system.specs.Stands.{SystemStands, TakesStep, SystemHasFailed};

use crate::inner::Inner;
use direct_run::{Items, Step, Told};
use gate_history::Counts;
use model_device::Gadget;
use std::alloc::Global;
use std::marker::Model;
use usb_base::Memory;

/// The gateway, the device's host, and the wires between them. Once memory has run out in a step, every later one
/// answers `Memory` and changes nothing.
#[derive(Drop)]
pub struct System<G: Gadget> {
    inner: Inner<G>,
}

impl<G: Gadget> Model for System<G> {
    ghost use Rattle.direct_system.specs.Kept.{SystemKept};
    ghost use Rattle.direct_system.specs.inner.Views.{kept_of};

    ghost Value = { SystemKept G };

    ghost view = { λ system. kept_of system.inner };
}

impl<G: Gadget> System<G> {
    /// The system of a device that was just plugged in. What is told are the hellos of both.
    pub fn make(alloc: Global, gadget: G) -> Result<(System<G>, Told), Memory>
        ensures made { IfOk result (λ made. SystemStands G.meaning gadget made.0 []) }
        ensures told { IfOk result (λ made. made.1 ≡ told_first G.meaning gadget) }
    {
        let mut told = Told::new(alloc);
        let inner = Inner::make(alloc, gadget, &mut told)?;
        Ok((System { inner }, told))
    }

    /// Does a step.
    pub fn step(&mut self, step: Step) -> Result<Told, Memory>
        ensures takes { IfOk result (λ told. (first : G) (past : List PastStep) → SystemStands G.meaning first self.old past
            → TakesStep G.meaning first self.new past (step_of step.entry) told) }
        ensures fails { OnErr result (SystemHasFailed self.new) }
        ensures failed { SystemHasFailed self.old → IsErr result × (self.new ≡ self.old) }
    {
        // Each arm makes its step anew: the borrow checker doesn't cover one that is handed on as it came.
        match step {
            Step::Client(bytes) => self.inner.step(&Step::Client(bytes)),
            Step::ClientEnd => self.inner.step(&Step::ClientEnd),
            Step::ToHost(count) => self.inner.step(&Step::ToHost(count)),
            Step::ToGate(count) => self.inner.step(&Step::ToGate(count)),
            Step::Perform(ep) => self.inner.step(&Step::Perform(ep)),
            Step::Offer(ep) => self.inner.step(&Step::Offer(ep)),
            Step::Unplug => self.inner.step(&Step::Unplug),
        }
    }

    /// All items so far.
    pub fn trace(&self) -> &Items
        ensures { (first : G) (steps : List PastStep) → SystemStands G.meaning first self.now steps → result.now ≡ trace_of G.meaning first steps }
    {
        &self.inner.trace
    }

    /// What the gateway has counted.
    pub fn counts(&self) -> Counts
        ensures { (first : G) (steps : List PastStep) → SystemStands G.meaning first self.now steps
            → result ≡ counts_of first_id (history first_id (course G.meaning first steps).events) }
    {
        self.inner.gate.counts()
    }
}
