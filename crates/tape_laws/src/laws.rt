//! A law of two commands, as the contract of a function that does nothing.

ghost use Rattle.std.specs.Prelude.{◌≡◌, ◌≤◌, ℕ, List, length, Some, None};
ghost use Rattle.bridge_run.specs.course.Course.{Course};
ghost use Rattle.bridge_run.specs.course.Outside.{written, Tells};
ghost use Rattle.tape_run.specs.declared.status.Status.{Status as End};
ghost use Rattle.usbgate_commands.specs.words.Serving.{ServeSettings};
ghost use Rattle.usbgate_commands.specs.links.Serves.{Known, Serves};
ghost use Rattle.packet_show.specs.declared.tape.TheConstants.{TAPE_LIMIT as tape_limit};
ghost use Rattle.tape_laws.specs.Begun.{IsFresh};
ghost use Rattle.tape_laws.specs.Plays.{Replays};

/// A law: what every run of `serve` has recorded says which events it took, and `replay` of that, with the same first
/// id, prints for each of them what was written to the links that were up. It speaks of doors and a tape that tell
/// their bytes, whatever the sink tells, and of tapes that aren't longer than `replay` reads. Where nothing was served
/// the tape is as it was, or has a front of its first line, whose replay prints what one of nothing does.
pub fn recordings_replay()
    ensures { (status : End) (asked : ServeSettings) (name : List ℕ) (old new : Known) (c : Course) (held : List ℕ)
        → asked.recording ≡ Some name → Serves asked.recording asked status old new
        → IsFresh asked c → Tells old.outside (written old.written.begun old.written.told None) c → new.written.tape ≡ Some held → length held ≤ tape_limit
        → Replays status asked c old.written.tape new.outside held }
{}
