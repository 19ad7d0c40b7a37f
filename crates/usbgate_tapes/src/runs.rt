//! The commands over a tape that have a gateway within, each from its start to its end.

ghost use Rattle.std.specs.Prelude.{◌≡◌, ◌≢◌, ◌≤◌};
ghost use Rattle.tape_run.specs.Logs.{RunLeaves};
ghost use Rattle.tape_run.specs.Printout.{tape_printout};
ghost use Rattle.tape_run.specs.tape.EventCommand.{over_events};
ghost use Rattle.tape_run.specs.Replay.{replay as replaying};
ghost use Rattle.tape_run.specs.model.Model.{model as modelling, model_of};
ghost use Rattle.tape_run.specs.Causes.{HasCauses};
ghost use Rattle.tape_run.specs.declared.status.Status.TheVariants.{Usage};
ghost use Rattle.usbgate_tapes.specs.model.Simulated.{AreSimulated, RunSimulates};
ghost use Rattle.usbgate_tapes.specs.inner.model.Model.{IsModelled};

use crate::model::ModelRun;
use crate::replay::Replay;
use direct_system::systems_are_direct;
use gate_outside::{Sink, Source};
use model_device::Gadget;
use std::alloc::Global;
use tape_run::runs::over_tape;
use tape_run::{Device, DeviceUser, EventTape, Status};
use usb_base::Bytes;

/// Puts the events of a tape to a gate, and prints what that sends and which sides it refuses.
pub fn replay<S: Source, K: Sink>(alloc: Global, first_id: u32, tape: &mut S, out: &mut K) -> Status
    requires { 1 ≤ first_id }
    ensures leaves { RunLeaves S.read_gives K.write_gives S.remaining K.contents result (tape_printout (over_events (replaying first_id))) tape.old tape.new out.old out.new }
    ensures causes { HasCauses result (S.faults tape.old) (S.faults tape.new) (K.faults out.old) (K.faults out.new) }
    ensures command { result ≢ Status.Usage }
{
    let mut text = Bytes::new(alloc);
    match Replay::start(alloc, first_id, &mut text) {
        Ok(replay) => over_tape(alloc, EventTape::start(replay), text, tape, out),
        Err(_) => Status::OutOfMemory,
    }
}

/// Does the steps of a tape with a gateway and a modelled device, and prints what each tells.
pub fn model<S: Source, K: Sink>(alloc: Global, device: Device, tape: &mut S, out: &mut K) -> Status
    ensures leaves { RunLeaves S.read_gives K.write_gives S.remaining K.contents result (tape_printout (model_of device)) tape.old tape.new out.old out.new }
    ensures simulates { RunSimulates S.read_gives S.remaining result device tape.old tape.new }
    ensures causes { HasCauses result (S.faults tape.old) (S.faults tape.new) (K.faults out.old) (K.faults out.new) }
    ensures command { result ≢ Status.Usage }
{
    match device.make_for(alloc, &mut Modelling { alloc, tape, out }) {
        Ok(status) => status,
        Err(_) => Status::OutOfMemory,
    }
}

/// The steps of a tape that are done with a device, whichever it is.
#[derive(Drop)]
struct Modelling<'a, S, K> {
    alloc: Global,
    tape: &'a mut S,
    out: &'a mut K,
}

impl<'a, S: Source, K: Sink> DeviceUser for Modelling<'a, S, K> {
    type Answer = Status;

    ghost Ready = { λ user. Unit {0} };

    ghost Holds = { λ old new status. (new.tape.ghost_name ≡ old.tape.ghost_name) × (new.out.ghost_name ≡ old.out.ghost_name) × (status ≢ Usage) × HasCauses status (S.faults old.tape.now) (S.faults new.tape.now) (K.faults old.out.now) (K.faults new.out.now) };

    ghost Comes = { λ old new status D m s. IsModelled S.read_gives K.write_gives S.remaining K.contents status m s old.tape.now new.tape.now old.out.now new.out.now };

    fn take<G: Gadget>(&mut self, gadget: G) -> Status {
        model_with(self.alloc, gadget, self.tape, self.out)
    }
}

fn model_with<G: Gadget, S: Source, K: Sink>(
    alloc: Global,
    gadget: G,
    tape: &mut S,
    out: &mut K,
) -> Status
    ensures leaves { RunLeaves S.read_gives K.write_gives S.remaining K.contents result (tape_printout (modelling G.meaning gadget)) tape.old tape.new out.old out.new }
    ensures simulates { AreSimulated S.read_gives S.remaining result G.meaning gadget tape.old tape.new }
    ensures causes { HasCauses result (S.faults tape.old) (S.faults tape.new) (K.faults out.old) (K.faults out.new) }
    ensures command { result ≢ Status.Usage }
{
    systems_are_direct::<G>();
    let mut text = Bytes::new(alloc);
    match ModelRun::start(alloc, gadget, &mut text) {
        Ok(run) => over_tape(alloc, run, text, tape, out),
        Err(_) => Status::OutOfMemory,
    }
}
