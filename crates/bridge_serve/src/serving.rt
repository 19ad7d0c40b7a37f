//! The gateway between a host that is dialled and clients that come to a door.

ghost use Rattle.std.specs.Prelude.{◌≡◌, ◌≤◌, false, Some};
ghost use Rattle.usb_base.specs.declared.side.Side.TheVariants.{Client, Host};
ghost use Rattle.bridge_run.specs.course.Course.{Course, Making};
ghost use Rattle.bridge_run.specs.course.Calls.{Goes};
ghost use Rattle.bridge_run.specs.course.Outside.{outside, written, faults, Tells, HasCause, HasReason};
ghost use Rattle.bridge_run.specs.course.Serves.{NothingYet, Leaves};
ghost use Rattle.bridge_run.specs.log.Log.{Told, Logged};
ghost use Rattle.bridge_serve.specs.served.Gate.{gate_sends};
ghost use Rattle.bridge_serve.specs.served.GateStops.{gate_runs_out};

use crate::served::after_loss::AfterLoss;
use crate::served::gate::Gateway;
use bridge_run::{RunTerms, ServeEnd, run_between};
use gate_core::Gate;
use gate_outside::{Doors, Sink};
use session_tape::Tape;
use std::alloc::Global;
use usb_base::Bytes;

/// What the gateway is asked: how, between whom, and how long.
#[derive(Clone, Copy)]
pub struct ServeTerms<'a> {
    /// The first id that is drawn for a packet to the host.
    pub first_id: u64,
    /// What becomes of the link of a client whose imported device is lost.
    pub after_loss: AfterLoss,
    /// Between whom, and how long.
    pub run: RunTerms<'a>,
}

/// Serves a gate that draws its ids from `first_id` on, as `run_between` does: what comes is an event of it, and where
/// `after_loss` says so, a client whose imported device an event loses is let go.
pub fn serve<D: Doors, K: Sink, T: Tape>(
    alloc: Global,
    terms: ServeTerms<'_>,
    doors: &mut D,
    out: &mut K,
    tape: &mut T,
) -> ServeEnd
    requires client_down { (D.link doors.old Client).up ≡ false }
    requires host_down { (D.link doors.old Host).up ≡ false }
    requires idle { 1 ≤ terms.run.idle }
    requires budget { 1 ≤ terms.run.budget }
    requires first_id { (1 ≤ terms.first_id) × (terms.first_id ≤ u32.MAX) }
    // Over doors that tell, and a sink and a tape that may.
    ensures leaves { (c : Course) → NothingYet terms.entry.run.idle terms.entry.run.budget c → Tells (outside (D.link doors.old) (D.door doors.old)) (written (K.contents out.old) (K.contents out.old) (T.contents tape.old)) c
        → Leaves result (gate_runs_out terms.entry.first_id) (record { served = gate_sends terms.entry.after_loss terms.entry.first_id; idle = terms.entry.run.idle }) (Goes Making c) (outside (D.link doors.new) (D.door doors.new)) (written (K.contents out.old) (K.contents out.new) (T.contents tape.new)) }
    // Over any doors, any sink and any tape.
    ensures log { Logged result D.call_gives (gate_runs_out terms.entry.first_id) (Told K.write_gives out.old out.new) (record { host = Some terms.entry.run.host.now; door = terms.entry.run.listen.now; taped = T.made tape.old; idle = terms.entry.run.idle; budget = terms.entry.run.budget }) (gate_sends terms.entry.after_loss terms.entry.first_id) doors.old doors.new }
    ensures cause { HasCause result (outside (D.link doors.old) (D.door doors.old)) (outside (D.link doors.new) (D.door doors.new)) (faults (K.faults out.old) (T.counts tape.old)) (faults (K.faults out.new) (T.counts tape.new)) }
    ensures reason { HasReason result terms.entry.run.idle (outside (D.link doors.old) (D.door doors.old)) (outside (D.link doors.new) (D.door doors.new)) }
{
    let mut greeting = Bytes::new(alloc);
    let gate = match Gate::make(alloc, terms.first_id, &mut greeting) {
        Ok(gate) => gate,
        Err(_) => return ServeEnd::Memory,
    };
    let gateway = Gateway {
        gate,
        after_loss: terms.after_loss,
    };
    let hello = greeting.as_slice();
    run_between(alloc, gateway, hello, terms.run, doors, out, tape)
}
