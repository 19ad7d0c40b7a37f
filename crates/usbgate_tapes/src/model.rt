//! The command `model`: the steps of a tape are done with a gateway and a modelled device.

ghost use Rattle.std.specs.Prelude.{◌≡◌, ◌++◌, ◌||◌, not, [], List, IfOk, OnOk, OnErr, IsSome};
ghost use Rattle.usb_base.specs.Lists.{is_empty};
ghost use Rattle.direct_system.specs.Stands.{SystemStands};
ghost use Rattle.direct_run.specs.Steps.{PastStep};
ghost use Rattle.direct_run.specs.Trace.{told_first};
ghost use Rattle.tape_run.specs.model.Model.{model, step_said};
ghost use Rattle.tape_run.specs.Text.{told_text};
ghost use Rattle.usbgate_tapes.specs.inner.model.Model.{HasDone, TakesSaid};

pub mod load;

use direct_run::{Step, Told};
use direct_system::System;
use model_device::Gadget;
use packet_show::{LineError, ModelLine};
use std::alloc::Global;
use tape_run::{TapeCommand, push_counts, push_told};
use usb_base::{Bytes, Memory};

/// A gateway and a modelled device, with which the steps of a tape are done.
#[derive(Drop)]
pub struct ModelRun<G: Gadget> {
    system: System<G>,
    /// The gateway has refused a side.
    refused: bool,
}

impl<G: Gadget> ModelRun<G> {
    /// The run with which nothing has been done. It appends the lines of the hellos.
    pub fn start(alloc: Global, gadget: G, text: &mut Bytes) -> Result<ModelRun<G>, Memory>
        ensures start { IfOk result (λ made. HasDone G.meaning gadget made []) }
        ensures text { OnOk result (text.new ≡ text.old ++ told_text (told_first G.meaning gadget)) }
    {
        let (system, told) = System::make(alloc, gadget)?;
        match push_first(alloc, told, text) {
            Ok(()) => Ok(ModelRun {
                system,
                refused: false,
            }),
            Err(memory) => Err(memory),
        }
    }

    /// Appends what the step tells that was just done.
    fn print(&mut self, alloc: Global, told: &Told, text: &mut Bytes) -> Result<(), Memory>
        ensures text { OnOk result (text.new ≡ text.old ++ told_text told.now) }
        ensures system { self.new.system ≡ self.old.system }
        ensures refused { OnOk result (self.new.refused ≡ (self.old.refused || not (is_empty told.now.refusals))) }
    {
        push_told(alloc, told, text)?;
        self.refused |= !told.refusals.is_empty();
        Ok(())
    }
}

/// Appends what is told first, which is told once.
fn push_first(alloc: Global, told: Told, text: &mut Bytes) -> Result<(), Memory>
    ensures { OnOk result (text.new ≡ text.old ++ told_text told) }
{
    push_told(alloc, &told, text)
}

/// Does the step that a line says, if there is one.
pub fn do_line<G: Gadget>(system: &mut System<G>, line: &ModelLine) -> Result<Option<Told>, Memory>
    ensures takes { IfOk result (λ told. (first : G) (past : List PastStep) → SystemStands G.meaning first system.old past → TakesSaid G.meaning first system.new past (step_said line.now) told) }
    ensures told { IfOk result (λ told. IsSome told → IsSome (step_said line.now)) }
    ensures err { OnErr result (IsSome (step_said line.now)) }
{
    let step = match line {
        ModelLine::Skip => return Ok(None),
        ModelLine::Client(piece) => Step::Client(piece.as_slice()),
        ModelLine::ClientEnd => Step::ClientEnd,
        ModelLine::ToHost(count) => Step::ToHost(*count),
        ModelLine::ToGate(count) => Step::ToGate(*count),
        ModelLine::Perform(ep) => Step::Perform(*ep),
        ModelLine::Offer(ep) => Step::Offer(*ep),
        ModelLine::Unplug => Step::Unplug,
    };
    Ok(Some(system.step(step)?))
}

impl<G: Gadget> TapeCommand for ModelRun<G> {
    ghost Kept = { List PastStep };

    ghost Task = { G };

    ghost means = { model G.meaning };

    ghost Keeps = { HasDone G.meaning };

    fn take_line(&mut self, alloc: Global, line: &[u8], text: &mut Bytes) -> Result<(), LineError> {
        let said = ModelLine::read(alloc, line)?;
        let Some(told) = do_line(&mut self.system, &said)? else {
            return Ok(());
        };
        self.print(alloc, &told, text)?;
        Ok(())
    }

    fn close(&self, alloc: Global, text: &mut Bytes) -> Result<(), Memory> {
        push_counts(alloc, &self.system.counts(), text)
    }

    fn has_refused(&self) -> bool {
        self.refused
    }
}
