//! Whatever is served at a door alone: no host is dialled.

ghost use Rattle.std.specs.Prelude.{◌≡◌, ◌≤◌, false, None};
ghost use Rattle.usb_base.specs.declared.side.Side.TheVariants.{Client, Host};
ghost use Rattle.session_tape.specs.Tapes.{counts};
ghost use Rattle.bridge_run.specs.course.Course.{Course, AtDoor};
ghost use Rattle.bridge_run.specs.course.Calls.{Goes};
ghost use Rattle.bridge_run.specs.course.Outside.{outside, written, faults, Tells, HasCause, HasReason};
ghost use Rattle.bridge_run.specs.course.Serves.{IsJustMade, NothingYet, Leaves};
ghost use Rattle.bridge_run.specs.log.Log.{Told, Logged};

use crate::course::polling::POLL_LIMIT;
use crate::course::rounds::Rounds;
use crate::course::serve_end::ServeEnd;
use crate::course::session::Session;
use crate::served::Served;
use gate_outside::{Doors, Side, Sink};
use session_tape::NoTape;
use std::alloc::Global;

/// Makes a door, and goes in rounds, as `run_between` does, with no tape. The host's side has no link.
pub fn run_at_door<C: Served + Drop, D: Doors, K: Sink>(
    alloc: Global,
    served: C,
    listen: &str,
    idle: u64,
    budget: u64,
    doors: &mut D,
    out: &mut K,
) -> ServeEnd
    requires client_down { (D.link doors.old Client).up ≡ false }
    requires host_down { (D.link doors.old Host).up ≡ false }
    requires idle { 1 ≤ idle }
    requires budget { 1 ≤ budget }
    // Over doors that tell, and a sink that may.
    ensures leaves { (first : C.First) (c : Course) → IsJustMade (C.stands first served) (C.sends first) → NothingYet idle budget c → Tells (outside (D.link doors.old) (D.door doors.old)) (written (K.contents out.old) (K.contents out.old) None) c
        → Leaves result (C.runs_out first) (record { served = C.sends first; idle = idle }) (Goes AtDoor c) (outside (D.link doors.new) (D.door doors.new)) (written (K.contents out.old) (K.contents out.new) None) }
    // Over any doors, and any sink.
    ensures log { (first : C.First) → IsJustMade (C.stands first served) (C.sends first)
        → Logged result D.call_gives (C.runs_out first) (Told K.write_gives out.old out.new) (record { host = None; door = listen.now; taped = false; idle = idle; budget = budget }) (C.sends first) doors.old doors.new }
    ensures cause { HasCause result (outside (D.link doors.old) (D.door doors.old)) (outside (D.link doors.new) (D.door doors.new)) (faults (K.faults out.old) (counts 0 0)) (faults (K.faults out.new) (counts 0 0)) }
    ensures reason { HasReason result idle (outside (D.link doors.old) (D.door doors.old)) (outside (D.link doors.new) (D.door doors.new)) }
{
    let mut buf = match vec![in alloc; 0; POLL_LIMIT] {
        Ok(buf) => buf,
        Err(_) => return ServeEnd::Memory,
    };
    if let Err(_) = doors.listen(listen) {
        return ServeEnd::LinkFault(Side::Client);
    }
    let mut session = Session::new(alloc, served, Rounds::new(idle, budget));
    session.run(&mut buf, doors, out, &mut NoTape)
}
