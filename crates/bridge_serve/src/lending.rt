//! A modelled device between links: the guest comes to a door.

ghost use Rattle.std.specs.Prelude.{◌≡◌, ◌≤◌, false, None};
ghost use Rattle.usb_base.specs.declared.side.Side.TheVariants.{Client, Host};
ghost use Rattle.session_tape.specs.Tapes.{counts};
ghost use Rattle.bridge_run.specs.course.Course.{Course, AtDoor};
ghost use Rattle.bridge_run.specs.course.Calls.{Goes};
ghost use Rattle.bridge_run.specs.course.Outside.{outside, written, faults, Tells, HasCause, HasReason};
ghost use Rattle.bridge_run.specs.log.Log.{Told, Logged};
ghost use Rattle.bridge_serve.specs.served.Lent.{lent_sends};
ghost use Rattle.bridge_serve.specs.served.LentStops.{LentStops};
ghost use Rattle.bridge_run.specs.course.Serves.{NothingYet, Leaves};

use crate::served::lent::Lent;
use bridge_run::{ServeEnd, run_at_door};
use gate_outside::{Doors, Sink};
use model_device::Gadget;
use std::alloc::Global;

/// Makes a door, lends the device to the guest that comes to it, and goes in rounds. A round asks for the guest, where
/// it hasn't come, and writes the host's hello to it as it comes. Then it polls the guest, performs the first request
/// of each endpoint, offers the streams of all IN endpoints, and writes what that sends. It ends behind the guest's
/// end, or behind bytes that are refused: what they send before is written, the link is closed, the refusal's line is
/// written to `out`, and nothing more is done with the device. It ends too after `idle` rounds in a row that bring
/// nothing, and once `budget` bytes have come, where the guest counts as one. The first call that fails is the last.
/// The guest is the client's side; the host's has no link.
pub fn serve_host<G: Gadget, D: Doors, K: Sink>(
    alloc: Global,
    gadget: G,
    listen: &str,
    idle: u64,
    budget: u64,
    doors: &mut D,
    out: &mut K,
) -> ServeEnd
    requires client_down { (D.link doors.old Client).up ≡ false }
    requires host_down { (D.link doors.old Host).up ≡ false }
    requires idle { 1 ≤ idle }
    requires budget { 1 ≤ budget }
    // Over doors that tell, and a sink that may.
    ensures leaves { (c : Course) → NothingYet idle budget c → Tells (outside (D.link doors.old) (D.door doors.old)) (written (K.contents out.old) (K.contents out.old) None) c
        → Leaves result (LentStops G.meaning gadget) (record { served = lent_sends G.meaning gadget; idle = idle }) (Goes AtDoor c) (outside (D.link doors.new) (D.door doors.new)) (written (K.contents out.old) (K.contents out.new) None) }
    // Over any doors, and any sink.
    ensures log { Logged result D.call_gives (LentStops G.meaning gadget) (Told K.write_gives out.old out.new) (record { host = None; door = listen.now; taped = false; idle = idle; budget = budget }) (lent_sends G.meaning gadget) doors.old doors.new }
    ensures cause { HasCause result (outside (D.link doors.old) (D.door doors.old)) (outside (D.link doors.new) (D.door doors.new)) (faults (K.faults out.old) (counts 0 0)) (faults (K.faults out.new) (counts 0 0)) }
    ensures reason { HasReason result idle (outside (D.link doors.old) (D.door doors.old)) (outside (D.link doors.new) (D.door doors.new)) }
{
    let lent = match Lent::make(alloc, gadget) {
        Ok(lent) => lent,
        Err(_) => return ServeEnd::Memory,
    };
    run_at_door(alloc, lent, listen, idle, budget, doors, out)
}
