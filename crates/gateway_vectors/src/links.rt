//! Runs between links in memory, and what they leave.

ghost use Rattle.std.specs.Prelude.{◌≡◌, false, IfOk};

use crate::case::Case;
use crate::recorded::{push_recorded, recording_of};
use crate::runs::Came;
use crate::scripts::{script_of, scripts_of};
use crate::spend::spend;
use gate_outside::{ScriptDoors, Side, TextSink, TextSource};
use session_tape::TextTape;
use std::alloc::Global;
use tape_run::Status;
use usb_base::Memory;
use usbgate::run;

/// How many bytes can be written to each side.
const ROOM: usize = 262_144;

/// Runs the words between links that give what the lines say, over a tape that can't be read. Behind its text come the
/// lines that it recorded.
pub fn ran_between(alloc: Global, case: Case<'_>) -> Result<Came, Memory> {
    let mut recording = recording_of(alloc, case.how)?;
    let mut came = ran_recorded(alloc, case, &mut recording)?;
    push_recorded(alloc, &mut came.text, recording.held())?;
    Ok(came)
}

/// The same with this file to record in, whose lines aren't told.
pub fn ran_recorded(
    alloc: Global,
    case: Case<'_>,
    recording: &mut TextTape,
) -> Result<Came, Memory> {
    let how = case.how;
    let fails = how.write_fails;
    let mut doors = doors_of(alloc, case)?;
    let mut out = TextSink::make(alloc, how.room, how.write_by.max(1), fails.as_slice())?;
    let status = between(alloc, case, &mut doors, &mut out, recording)?;
    left(alloc, status, &doors, &out)
}

/// The doors, whose links give what the lines say.
fn doors_of(alloc: Global, case: Case<'_>) -> Result<ScriptDoors, Memory>
    ensures client_down { IfOk result (λ doors. doors.client.up ≡ false) }
    ensures host_down { IfOk result (λ doors. doors.host.up ≡ false) }
{
    let host = script_of(alloc, case.lines, "h ")?;
    let clients = scripts_of(alloc, case.lines)?;
    let (host_fails, client_fails) = (case.how.host_fails, case.how.client_fails);
    ScriptDoors::make_many(
        alloc,
        ROOM,
        host,
        clients,
        host_fails.as_slice(),
        client_fails.as_slice(),
    )
}

fn between(
    alloc: Global,
    case: Case<'_>,
    doors: &mut ScriptDoors,
    out: &mut TextSink,
    recording: &mut TextTape,
) -> Result<Status, Memory>
    requires client_down { doors.old.client.up ≡ false }
    requires host_down { doors.old.host.up ≡ false }
{
    if let Some(budget) = case.how.budget {
        return Ok(spend(alloc, case.words, budget.max(1), doors, out));
    }
    let mut tape = TextSource::make(alloc, b"c 00\n", 9, &[0])?;
    Ok(run(alloc, case.words, &mut tape, out, doors, recording))
}

/// What was written to each side, and then what was printed.
fn left(
    alloc: Global,
    status: Status,
    doors: &ScriptDoors,
    out: &TextSink,
) -> Result<Came, Memory> {
    let mut text = String::new(alloc);
    push_written(alloc, &mut text, "C ", doors.written(Side::Client))?;
    push_written(alloc, &mut text, "H ", doors.written(Side::Host))?;
    text.push_str(String::from_utf8_lossy(alloc, out.held())?.as_str())?;
    Ok(Came {
        text,
        status,
        is_joined: true,
    })
}

fn push_written(
    alloc: Global,
    text: &mut String,
    letter: &str,
    written: &[u8],
) -> Result<(), Memory> {
    text.push_str(letter)?;
    text.push_str(hex::encode(alloc, written)?.as_str())?;
    text.push('\n')?;
    Ok(())
}
