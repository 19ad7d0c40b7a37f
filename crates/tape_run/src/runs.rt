//! A run over a tape, from its start to its end: of any command, and of `show`.

ghost use Rattle.std.specs.Prelude.{◌≡◌, ◌≢◌, ◌++◌, ◌<◌, [], length, OnOk, OnErr};
ghost use Rattle.std.specs.Io.KnownBytes.{Appends};
ghost use Rattle.gate_outside.specs.Faults.{HasCause};
ghost use Rattle.gate_outside.specs.Front.{AppendsFront};
ghost use Rattle.gate_outside.specs.Moved.{Moves, MovesFront};
ghost use Rattle.tape_run.specs.Logs.{RunLeaves};
ghost use Rattle.tape_run.specs.Printout.{tape_printout};
ghost use Rattle.tape_run.specs.tape.EventCommand.{over_events};
ghost use Rattle.tape_run.specs.tape.Kept.{ReaderRuns};
ghost use Rattle.tape_run.specs.Show.{show as showing, show_side};
ghost use Rattle.tape_run.specs.Causes.{HasCauses};
ghost use Rattle.tape_run.specs.declared.status.Status.TheVariants.{Usage};
ghost use Rattle.tape_run.specs.inner.show.Show.{shown_by};
ghost use Rattle.tape_run.specs.inner.tape.TapeReader.{Stage, end_text};

use crate::show::Show;
use crate::show::format::ShownFormat;
use crate::status::Status;
use crate::tape::command::TapeCommand;
use crate::tape::events::EventTape;
use crate::tape::reader::TapeReader;
use crate::text::bad_line;
use gate_outside::{Failed, Sink, Source, write_all};
use redir_data::FromHost;
use std::alloc::Global;
use usb_base::{Bytes, Side};
use usbip_urb::ClientFormat;

/// How many bytes of a tape are read at a time.
const READ_LIMIT: usize = 65_536;

/// Prints the packets of one side's stream in a tape.
pub fn show<S: Source, K: Sink>(alloc: Global, side: Side, tape: &mut S, out: &mut K) -> Status
    ensures leaves { RunLeaves S.read_gives K.write_gives S.remaining K.contents result (tape_printout (over_events (showing side))) tape.old tape.new out.old out.new }
    ensures causes { HasCauses result (S.faults tape.old) (S.faults tape.new) (K.faults out.old) (K.faults out.new) }
    ensures command { result ≢ Status.Usage }
{
    match side {
        Side::Client => show_stream::<ClientFormat, S, K>(alloc, tape, out),
        Side::Host => show_stream::<FromHost, S, K>(alloc, tape, out),
    }
}

fn show_stream<F: ShownFormat, S: Source, K: Sink>(
    alloc: Global,
    tape: &mut S,
    out: &mut K,
) -> Status
    ensures leaves { RunLeaves S.read_gives K.write_gives S.remaining K.contents result (tape_printout (over_events (show_side (shown_by F.the_side F.format F.after F.first_state F.bytes F.line)))) tape.old tape.new out.old out.new }
    ensures causes { HasCauses result (S.faults tape.old) (S.faults tape.new) (K.faults out.old) (K.faults out.new) }
    ensures command { result ≢ Status.Usage }
{
    let show = Show::<F>::start(alloc);
    over_tape(alloc, EventTape::start(show), Bytes::new(alloc), tape, out)
}

/// Reads the tape to its end, and writes its text as it goes, behind the text with which the command starts. For each
/// task that the command has at its start, the run leaves what that task means, and where it comes to the end of its
/// tape, or to a bad line, some command with that task keeps what was read.
pub fn over_tape<C: TapeCommand + Drop, S: Source, K: Sink>(
    alloc: Global,
    command: C,
    text: Bytes,
    tape: &mut S,
    out: &mut K,
) -> Status
    requires { (task : C.Task) × C.Keeps task command (C.means task).start × (text ≡ (C.means task).opening) }
    ensures runs { (task : C.Task) → C.Keeps task command (C.means task).start → text ≡ (C.means task).opening
        → ReaderRuns (C.means task) (C.Keeps task) S.read_gives K.write_gives S.remaining K.contents result tape.old tape.new out.old out.new }
    ensures causes { HasCauses result (S.faults tape.old) (S.faults tape.new) (K.faults out.old) (K.faults out.new) }
    ensures command { result ≢ Status.Usage }
{
    let mut buf = match vec![in alloc; 0; READ_LIMIT] {
        Ok(buf) => buf,
        Err(_) => return Status::OutOfMemory,
    };
    read_pieces(
        alloc,
        TapeReader::start(alloc, command, text),
        &mut buf,
        tape,
        out,
    )
}

/// Reads the tape a buffer at a time. What text there is is written before each read.
fn read_pieces<C: TapeCommand + Drop, S: Source, K: Sink>(
    alloc: Global,
    mut reader: TapeReader<C>,
    buf: &mut [u8],
    tape: &mut S,
    out: &mut K,
) -> Status
    requires start { (task : C.Task) × Stage (C.means task) (C.Keeps task) reader [] [] }
    requires room { 0 < length buf.old }
    ensures runs { (task : C.Task) → Stage (C.means task) (C.Keeps task) reader [] []
        → ReaderRuns (C.means task) (C.Keeps task) S.read_gives K.write_gives S.remaining K.contents result tape.old tape.new out.old out.new }
    ensures causes { HasCauses result (S.faults tape.old) (S.faults tape.new) (K.faults out.old) (K.faults out.new) }
    ensures command { result ≢ Status.Usage }
{
    loop {
        if let Err(_) = write_all(out, reader.text.as_slice()) {
            return Status::WriteFault;
        }
        reader.text.clear();
        let n = match tape.read(buf) {
            Ok(n) => n,
            Err(_) => return Status::ReadFault,
        };
        let ended = match reader.step(alloc, &buf[..n]) {
            Ok(ended) => ended,
            Err(_) => return Status::OutOfMemory,
        };
        if let Some(status) = ended {
            if let Err(_) = write_end(status, reader.text.as_slice(), out) {
                return Status::WriteFault;
            }
            return status;
        }
    }
}

/// Writes the last text, and behind it the line that names a bad line, where the run ends at one.
fn write_end<K: Sink>(status: Status, text: &[u8], out: &mut K) -> Result<(), Failed>
    ensures ok { OnOk result (Appends (K.contents out.old) (K.contents out.new) (text.now ++ end_text status)) }
    ensures err { OnErr result (AppendsFront (K.contents out.old) (K.contents out.new) (text.now ++ end_text status)) }
    ensures cause { HasCause (K.faults out.old) (K.faults out.new) result }
    ensures writes { OnOk result (Moves K.write_gives (text.now ++ end_text status) out.old out.new) }
    ensures writes_front { OnErr result (MovesFront K.write_gives (text.now ++ end_text status) out.old out.new) }
{
    write_all(out, text)?;
    match status {
        Status::BadTape(number) => write_all(out, bad_line(number).as_bytes()),
        _ => Ok(()),
    }
}
