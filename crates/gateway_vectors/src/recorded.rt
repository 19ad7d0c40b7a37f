//! Recordings of runs.

use crate::case::Case;
use crate::cut::joined;
use crate::how::{How, PLAIN};
use crate::links::ran_recorded;
use crate::runs::{Came, over_tape};
use session_tape::{TextTape, Unmade};
use std::alloc::Global;
use tape_run::Status;
use usb_base::Memory;

/// The file to record in, which isn't made yet.
pub fn recording_of(alloc: Global, how: &How) -> Result<TextTape, Memory> {
    let answer = match (how.there, how.unmade) {
        (Some(_), _) => Err(Unmade::There),
        (None, Some(_)) => Err(Unmade::Failed),
        (None, None) => Ok(()),
    };
    let fails = how.tape_fails;
    TextTape::new(alloc, how.tape_room, answer, fails.as_slice())
}

/// Appends the lines of a recording, each behind a `T`.
pub fn push_recorded(alloc: Global, text: &mut String, held: &[u8]) -> Result<(), Memory> {
    let held = String::from_utf8_lossy(alloc, held)?;
    for line in held.split('\n') {
        if !line.is_empty() {
            push_line(text, line)?;
        }
    }
    Ok(())
}

fn push_line(text: &mut String, line: &str) -> Result<(), Memory> {
    text.push_str("T ")?;
    text.push_str(line)?;
    text.push('\n')?;
    Ok(())
}

/// Runs the words of `serve` once more, with a recording, and replays that. Where the run does something else then, or
/// the replay prints other bytes than were written to the links, or other refusals, or ends otherwise, a line says so.
pub fn check_recording(alloc: Global, case: Case<'_>, came: &mut Came) -> Result<(), Memory> {
    let mut recording = recording_of(alloc, &PLAIN)?;
    let words = with_option(alloc, case.words)?;
    let case_again = Case {
        words: &words,
        ..case
    };
    let again = ran_recorded(alloc, case_again, &mut recording)?;
    if again.text.as_str() != came.text.as_str() || again.status != came.status {
        came.text.push_str("recorded it goes otherwise\n")?;
        return Ok(());
    }
    let replayed = replay(alloc, case.words, recording.held())?;
    if !is_replayed(came, &replayed) {
        came.text.push_str("its recording sends ")?;
        came.text.push_str(replayed.text.as_str())?;
    }
    Ok(())
}

/// Whether a replay printed all that a run did, and then the counts, and ended by whether a side was refused. Of a run
/// that had a fault it may print more.
fn is_replayed(came: &Came, replayed: &Came) -> bool {
    let Some(more) = replayed.text.strip_prefix(came.text.as_str()) else {
        return false;
    };
    match came.status {
        Status::WriteFault | Status::LinkFault(_) | Status::OutOfMemory => true,
        _ => is_counts(more) && replayed.status == end_of(came.text.as_str()),
    }
}

/// Whether it is one line, of counts, and the empty one in which a joined text ends.
fn is_counts(text: &str) -> bool {
    text.starts_with("answered ") && text.find('\n') == Some(text.len().saturating_sub(2))
}

/// How the replay ends of a session with this text.
fn end_of(text: &str) -> Status {
    if text.contains("\n! ") {
        Status::Refused
    } else {
        Status::Done
    }
}

/// The words, with a file to record in.
fn with_option<'a>(alloc: Global, words: &[&'a str]) -> Result<Vec<&'a str>, Memory> {
    let mut more = Vec::new(alloc);
    for word in words {
        more.push(*word)?;
    }
    more.push("--record")?;
    more.push("a.tape")?;
    Ok(more)
}

/// What the replay of a tape prints, with the bytes of each side joined, and how it ends.
fn replay(alloc: Global, words: &[&str], tape: &[u8]) -> Result<Came, Memory> {
    let words = replaying(alloc, words)?;
    let mut came = over_tape(alloc, &words, tape, &PLAIN)?;
    came.text = joined(alloc, came.text.as_str())?;
    Ok(came)
}

/// The words of a replay with the first id of these.
fn replaying<'a>(alloc: Global, words: &[&'a str]) -> Result<Vec<&'a str>, Memory> {
    let mut replaying = Vec::new(alloc);
    replaying.push("replay")?;
    let mut is_first_id = false;
    for word in words {
        if *word == "--first-id" || is_first_id {
            replaying.push(*word)?;
        }
        is_first_id = *word == "--first-id";
    }
    Ok(replaying)
}
