//! Whatever is served between a host that is dialled and clients that come to a door.

ghost use Rattle.std.specs.Prelude.{◌≡◌, ◌≤◌, ℕ, Bool, [], false, Some, OnOk, IfErr};
ghost use Rattle.usb_base.specs.declared.side.Side.TheVariants.{Client, Host};
ghost use Rattle.bridge_run.specs.events.Prescribed.{Prescribed};
ghost use Rattle.bridge_run.specs.course.Course.{Course, Making};
ghost use Rattle.bridge_run.specs.course.Calls.{Goes};
ghost use Rattle.bridge_run.specs.course.Outside.{Written, Faults, outside, written, faults, Tells, HasCause, HasReason};
ghost use Rattle.bridge_run.specs.course.Serves.{IsJustMade, NothingYet, Leaves};
ghost use Rattle.bridge_run.specs.log.Log.{Told, Logged};
ghost use Rattle.bridge_run.specs.inner.Logging.{OpenLogs};
ghost use Rattle.bridge_run.specs.inner.Follows.{HasFaults, IsCutEnd, IsOpen, Opens};
ghost use Rattle.bridge_run.specs.inner.Idling.{NotIdle};

use crate::course::polling::POLL_LIMIT;
use crate::course::rounds::Rounds;
use crate::course::serve_end::ServeEnd;
use crate::course::session::Session;
use crate::served::Served;
use crate::written::link::write_link;
use gate_outside::{Doors, Side, Sink};
use session_tape::Tape;
use std::alloc::Global;

/// Between whom it goes, and how long.
#[derive(Clone, Copy)]
pub struct RunTerms<'a> {
    /// The addresses at which the host is dialled, and of the clients' door.
    pub host: &'a str,
    pub listen: &'a str,
    /// After how many rounds in a row that bring nothing it ends, and after how many bytes, where each client counts as
    /// one.
    pub idle: u64,
    pub budget: u64,
}

/// Dials the host, makes the clients' door, writes to the host what the making of `served` has sent (`hello`), and goes
/// in rounds. A round asks for a client where none is there, and polls the client and then the host, each where its
/// link is up. What comes is an event of what is served. Its line and a comment for each refusal go to the tape, where
/// that is made, and may wait as `few_lines_wait` says. What an event sends is written to the client and then to the
/// host, each where its link is up. Then a side that it refuses has its link closed, and its line is written to `out`;
/// and a client that is let go has its link closed, too. The next event is the end of a client whose link was closed
/// so. It ends after `idle` rounds in a row that bring nothing, and once `budget` bytes have come, where each client
/// counts as one. The first call that fails is the last.
pub fn run_between<C: Served + Drop, D: Doors, K: Sink, T: Tape>(
    alloc: Global,
    served: C,
    hello: &[u8],
    terms: RunTerms<'_>,
    doors: &mut D,
    out: &mut K,
    tape: &mut T,
) -> ServeEnd
    requires client_down { (D.link doors.old Client).up ≡ false }
    requires host_down { (D.link doors.old Host).up ≡ false }
    requires idle { 1 ≤ terms.idle }
    requires budget { 1 ≤ terms.budget }
    // Over doors that tell, and a sink and a tape that may.
    ensures leaves { (first : C.First) (c : Course) → IsJustMade (C.stands first served) (C.sends first) → hello.now ≡ (C.sends first).to_host [] → NothingYet terms.entry.idle terms.entry.budget c → Tells (outside (D.link doors.old) (D.door doors.old)) (written (K.contents out.old) (K.contents out.old) (T.contents tape.old)) c
        → Leaves result (C.runs_out first) (record { served = C.sends first; idle = terms.entry.idle }) (Goes Making c) (outside (D.link doors.new) (D.door doors.new)) (written (K.contents out.old) (K.contents out.new) (T.contents tape.new)) }
    // Over any doors, any sink and any tape.
    ensures log { (first : C.First) → IsJustMade (C.stands first served) (C.sends first) → hello.now ≡ (C.sends first).to_host []
        → Logged result D.call_gives (C.runs_out first) (Told K.write_gives out.old out.new) (record { host = Some terms.entry.host.now; door = terms.entry.listen.now; taped = T.made tape.old; idle = terms.entry.idle; budget = terms.entry.budget }) (C.sends first) doors.old doors.new }
    ensures cause { HasCause result (outside (D.link doors.old) (D.door doors.old)) (outside (D.link doors.new) (D.door doors.new)) (faults (K.faults out.old) (T.counts tape.old)) (faults (K.faults out.new) (T.counts tape.new)) }
    ensures reason { HasReason result terms.entry.idle (outside (D.link doors.old) (D.door doors.old)) (outside (D.link doors.new) (D.door doors.new)) }
{
    let mut buf = match vec![in alloc; 0; POLL_LIMIT] {
        Ok(buf) => buf,
        Err(_) => return ServeEnd::Memory,
    };
    if let Err(end) = open(terms.host, terms.listen, hello, doors) {
        return end;
    }
    let rounds = Rounds {
        host_up: true,
        ..Rounds::new(terms.idle, terms.budget)
    };
    let mut session = Session::new(alloc, served, rounds);
    session.run(&mut buf, doors, out, tape)
}

/// Dials the host, makes the clients' door, and writes the hello.
fn open<D: Doors>(host: &str, listen: &str, hello: &[u8], doors: &mut D) -> Result<(), ServeEnd>
    requires client_down { (D.link doors.old Client).up ≡ false }
    requires host_down { (D.link doors.old Host).up ≡ false }
    ensures course { (p : Prescribed) (c : Course) (out : Written) → hello.now ≡ p.to_host [] → c.client_up ≡ false → Tells (outside (D.link doors.old) (D.door doors.old)) out c
        → Opens result p (outside (D.link doors.new) (D.door doors.new)) out c }
    ensures log { (taped : Bool) (idle budget : ℕ) (p : Prescribed) → hello.now ≡ p.to_host [] → OpenLogs result D.call_gives (record { host = Some host.now; door = listen.now; taped = taped; idle = idle; budget = budget }) p doors.old doors.new }
    ensures faults { (sink : Faults) → HasFaults result (outside (D.link doors.old) (D.door doors.old)) (outside (D.link doors.new) (D.door doors.new)) sink sink }
    ensures cut { IfErr result IsCutEnd }
    ensures idles { OnOk result (NotIdle (outside (D.link doors.old) (D.door doors.old)) (outside (D.link doors.new) (D.door doors.new))) }
    ensures opened { OnOk result (IsOpen (outside (D.link doors.new) (D.door doors.new))) }
{
    if let Err(_) = doors.dial(host) {
        return Err(ServeEnd::LinkFault(Side::Host));
    }
    if let Err(_) = doors.listen(listen) {
        return Err(ServeEnd::LinkFault(Side::Client));
    }
    let host_up = true;
    write_link(doors, Side::Host, host_up, hello)?;
    Ok(())
}
