//! A run of the program, over a tape, a sink and doors.

ghost use Rattle.std.specs.Prelude.{◌≡◌, ◌≢◌, ◌⊎◌, ℕ, true, false, Some, IfSome};
ghost use Rattle.gate_outside.specs.Faults.{Rose};
ghost use Rattle.usb_base.specs.declared.side.Side.{Side as ASide};
ghost use Rattle.usb_base.specs.declared.side.Side.TheVariants.{Client, Host};
ghost use Rattle.session_tape.specs.Tapes.{WasThere};
ghost use Rattle.bridge_run.specs.log.Log.{Told};
ghost use Rattle.bridge_run.specs.course.Outside.{faults, OneRose};
ghost use Rattle.tape_run.specs.declared.model.device.Device.{Device as ADevice};
ghost use Rattle.tape_run.specs.Logs.{RunLeaves};
ghost use Rattle.tape_run.specs.Printout.{Printout};
ghost use Rattle.usbgate.specs.Printouts.{printout_of};
ghost use Rattle.usbgate_tapes.specs.model.Simulated.{RunSimulates, MadeSimulates};
ghost use Rattle.usbgate_commands.specs.words.Serving.{ServeSettings};
ghost use Rattle.usbgate_commands.specs.words.Lending.{AskedLent};
ghost use Rattle.usbgate_commands.specs.links.Logs.{RunServes, RunLends};
ghost use Rattle.usbgate_commands.specs.links.Serves.{Known, known_of, known_untaped};
ghost use Rattle.usbgate_commands.specs.links.Recording.{records};
ghost use Rattle.usbgate_commands.specs.words.Words.{texts, command_of};

use gate_outside::{Doors, Sink, Source};
use session_tape::MakeTape;
use std::alloc::Global;
use tape_run::runs::show;
use tape_run::{Status, USAGE, make, print};
use usbgate_commands::{Command, host, serve};
use usbgate_tapes::load;
use usbgate_tapes::runs::{model, replay};

/// Does what the words say: `replay` puts the tape to a gate, and prints what that sends and which sides it refuses;
/// `model` does the steps of the tape with a gateway and a modelled device, and prints what each tells; `show` prints
/// the packets of one side's stream in it; `serve` puts what comes by the doors to a gate, prints which sides it
/// refuses, and records what comes, where that is asked; `host` lends a modelled device to a guest that comes by the
/// doors; `make` prints the tape that a number stands for, and `load` what a gateway counts as its steps are done with
/// a modelled loop. Words that are no command print how they should be.
pub fn run<S: Source, K: Sink, D: Doors, T: MakeTape>(
    alloc: Global,
    words: &[&str],
    tape: &mut S,
    out: &mut K,
    doors: &mut D,
    recording: &mut T,
) -> Status
    requires down { ((D.link doors.old Client).up ≡ false) × ((D.link doors.old Host).up ≡ false) }
    ensures leaves { (p : Printout) → printout_of (command_of (texts words.now)) ≡ Some p
        → RunLeaves S.read_gives K.write_gives S.remaining K.contents result p tape.old tape.new out.old out.new }
    ensures simulates { (device : ADevice) → command_of (texts words.now) ≡ Command.Model device → RunSimulates S.read_gives S.remaining result device tape.old tape.new }
    ensures load_simulates { (count : ℕ) → command_of (texts words.now) ≡ Command.Load count → result ≡ Status.Done → MadeSimulates count }
    ensures serves { (asked : ServeSettings) → command_of (texts words.now) ≡ Command.Serve asked
        → let known : D → K → T → Known = known_of D.link D.door K.faults K.contents T.counts T.contents out.old in
        RunServes D.call_gives (Told K.write_gives out.old out.new) result asked doors.old doors.new (known doors.old out.old recording.old) (known doors.new out.new recording.new) }
    ensures lends { (asked : AskedLent) → command_of (texts words.now) ≡ Command.Host asked
        → let known : D → K → Known = known_untaped D.link D.door K.faults K.contents out.old in
        RunLends D.call_gives (Told K.write_gives out.old out.new) result asked doors.old doors.new (known doors.old out.old) (known doors.new out.new) }
    ensures usage { result ≡ Status.Usage → (command_of (texts words.now) ≡ Command.Unknown) ⊎ ((records (command_of (texts words.now)) ≡ true) × WasThere (T.counts recording.old) (T.counts recording.new)) }
    ensures unread { IfSome (printout_of (command_of (texts words.now))) (λ p. p.taped ≡ false) → tape.new ≡ tape.old }
    ensures read_fault { result ≡ Status.ReadFault → Rose (S.faults tape.old) (S.faults tape.new) }
    ensures write_fault { result ≡ Status.WriteFault → OneRose (faults (K.faults out.old) (T.counts recording.old)) (faults (K.faults out.new) (T.counts recording.new)) }
    ensures sink_fault { records (command_of (texts words.now)) ≡ false → result ≡ Status.WriteFault → Rose (K.faults out.old) (K.faults out.new) }
    ensures reads_stand { result ≢ Status.ReadFault → S.faults tape.new ≡ S.faults tape.old }
    ensures writes_stand { result ≢ Status.WriteFault → K.faults out.new ≡ K.faults out.old }
    ensures recording_stands { result ≢ Status.WriteFault → result ≢ Status.Usage → T.counts recording.new ≡ T.counts recording.old }
    ensures link_fault { (side : ASide) → result ≡ Status.LinkFault side → Rose (D.link doors.old side).faults (D.link doors.new side).faults }
    ensures links_stand { (side : ASide) → result ≢ Status.LinkFault side → (D.link doors.new side).faults ≡ (D.link doors.old side).faults }
    ensures doors { (p : Printout) → printout_of (command_of (texts words.now)) ≡ Some p → doors.new ≡ doors.old }
    ensures unrecorded { records (command_of (texts words.now)) ≡ false → recording.new ≡ recording.old }
{
    let Ok(command) = Command::read(alloc, words) else {
        return Status::OutOfMemory;
    };
    match command {
        Command::Replay { first_id } => replay(alloc, first_id, tape, out),
        Command::Model { device } => model(alloc, device, tape, out),
        Command::Show { side } => show(alloc, side, tape, out),
        Command::Serve(serving) => serve(alloc, &serving, doors, out, recording),
        Command::Host(lending) => host(alloc, &lending, doors, out),
        Command::Make { count } => make(alloc, count, out),
        Command::Load { count } => load(alloc, count, out),
        Command::Unknown => print(USAGE, Status::Usage, out),
    }
}
