//! The command `serve`: the gateway between the links of a host and of its clients.

ghost use Rattle.std.specs.Prelude.{◌≡◌, ◌≤◌, ◌<◌, ◌^◌, true, false, is_some, IfSome, OnOk, IfErr};
ghost use Rattle.usb_base.specs.declared.side.Side.TheVariants.{Client, Host};
ghost use Rattle.gate_outside.specs.Faults.{Rose};
ghost use Rattle.session_tape.specs.Lines.{first_comment};
ghost use Rattle.bridge_run.specs.course.Course.{Making};
ghost use Rattle.bridge_run.specs.course.Outside.{outside, faults};
ghost use Rattle.usbgate_commands.specs.links.Recording.{IsUnmade, IsUnbegun, HasServed};
ghost use Rattle.bridge_serve.specs.served.Gate.{gate_sends};
ghost use Rattle.bridge_serve.specs.served.GateStops.{gate_runs_out};
ghost use Rattle.bridge_run.specs.log.Log.{Told};
ghost use Rattle.usbgate_commands.specs.links.Logs.{HasLog, RunServes, terms_of};
ghost use Rattle.usbgate_commands.specs.links.Serves.{Known, known_of, EndsOf, setting_of};

use crate::links::ended::ended_as;
use crate::words::serving::Serving;
use bridge_serve::{RunTerms, ServeTerms};
use gate_outside::{Doors, Sink};
use session_tape::{MakeTape, NoTape, Tape, Unmade, first_comment};
use std::alloc::Global;
use tape_run::Status;

/// How many bytes may come, where each client counts as one: 2 ^ 62.
pub const BUDGET: u64 = 4_611_686_018_427_387_904;

/// Serves the device of a host to clients, one after another, and writes a line for each refusal. Where that is asked a
/// file is made first, and what comes is recorded in it.
pub fn serve<D: Doors, K: Sink, T: MakeTape>(
    alloc: Global,
    serving: &Serving<'_>,
    doors: &mut D,
    out: &mut K,
    recording: &mut T,
) -> Status
    requires down { ((D.link doors.old Client).up ≡ false) × ((D.link doors.old Host).up ≡ false) }
    requires idle { 1 ≤ serving.now.idle }
    requires first_id { (1 ≤ serving.now.first_id) × (serving.now.first_id < 2 ^ 32) }
    ensures serves { let known : D → K → T → Known = known_of D.link D.door K.faults K.contents T.counts T.contents out.old in
        RunServes D.call_gives (Told K.write_gives out.old out.new) result serving.now doors.old doors.new (known doors.old out.old recording.old) (known doors.new out.new recording.new) }
    ensures causes { HasServed result (outside (D.link doors.old) (D.door doors.old)) (outside (D.link doors.new) (D.door doors.new))
        (faults (K.faults out.old) (T.counts recording.old)) (faults (K.faults out.new) (T.counts recording.new)) }
    ensures asked { result ≡ Status.Usage → is_some serving.now.recording ≡ true }
    ensures sink_fault { is_some serving.now.recording ≡ false → result ≡ Status.WriteFault → Rose (K.faults out.old) (K.faults out.new) }
    ensures unasked { is_some serving.now.recording ≡ false → recording.new ≡ recording.old }
{
    let Some(name) = serving.recording else {
        return between(alloc, serving, doors, out, &mut NoTape);
    };
    match begin(alloc, name, serving.first_id, recording) {
        Ok(()) => between(alloc, serving, doors, out, recording),
        Err(status) => status,
    }
}

/// Makes the file, and writes its first line, which tells the first id. The line is spelled first, so that for want of
/// memory no file is made.
fn begin<T: MakeTape>(
    alloc: Global,
    name: &str,
    first_id: u32,
    recording: &mut T,
) -> Result<(), Status>
    ensures made { OnOk result (T.made recording.new ≡ true) }
    ensures first_line { OnOk result (IfSome (T.contents recording.new) (λ held. held ≡ first_comment first_id)) }
    ensures stands { OnOk result (T.counts recording.new ≡ T.counts recording.old) }
    ensures cause { IfErr result (λ status. IsUnmade status (T.counts recording.old) (T.counts recording.new)) }
    ensures unbegun { IfErr result (λ status. IsUnbegun first_id status (T.contents recording.old) (T.contents recording.new)) }
{
    let Ok(comment) = first_comment(alloc, u64::from(first_id)) else {
        return Err(Status::OutOfMemory);
    };
    match recording.make(name) {
        Ok(()) => {}
        Err(Unmade::There) => return Err(Status::Usage),
        Err(Unmade::Failed) => return Err(Status::WriteFault),
    }
    match recording.put(comment.as_bytes()) {
        Ok(()) => Ok(()),
        Err(_) => Err(Status::WriteFault),
    }
}

/// Serves, and writes to the tape what comes.
fn between<D: Doors, K: Sink, T: Tape>(
    alloc: Global,
    serving: &Serving<'_>,
    doors: &mut D,
    out: &mut K,
    tape: &mut T,
) -> Status
    requires down { ((D.link doors.old Client).up ≡ false) × ((D.link doors.old Host).up ≡ false) }
    requires idle { 1 ≤ serving.now.idle }
    requires first_id { (1 ≤ serving.now.first_id) × (serving.now.first_id < 2 ^ 32) }
    requires made { T.made tape.old ≡ is_some serving.now.recording }
    ensures log { HasLog D.call_gives (gate_runs_out serving.now.first_id) (Told K.write_gives out.old out.new) (terms_of serving.now) (gate_sends serving.now.after_loss serving.now.first_id) result doors.old doors.new }
    ensures ends { let known : D → K → T → Known = known_of D.link D.door K.faults K.contents T.counts T.contents out.old in
        EndsOf (gate_runs_out serving.now.first_id) (setting_of serving.now) Making result (known doors.old out.old tape.old) (known doors.new out.new tape.new) }
{
    let terms = ServeTerms {
        first_id: u64::from(serving.first_id),
        after_loss: serving.after_loss,
        run: RunTerms {
            host: serving.host,
            listen: serving.listen,
            idle: u64::from(serving.idle),
            budget: BUDGET,
        },
    };
    ended_as(bridge_serve::serve(alloc, terms, doors, out, tape))
}
