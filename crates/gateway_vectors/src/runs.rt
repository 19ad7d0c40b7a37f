//! Runs over a tape.

use crate::case::Case;
use crate::cut::cut_tape;
use crate::how::How;
use crate::links::ran_between;
use crate::recorded::{check_recording, recording_of};
use gate_outside::{NoDoors, TextSink, TextSource};
use std::alloc::Global;
use tape_run::Status;
use usb_base::Memory;
use usbgate::run;

/// What a run printed, whether of its text only the bytes of each side are compared, and how it ended.
#[derive(Drop)]
pub struct Came {
    pub text: String,
    pub is_joined: bool,
    pub status: Status,
}

/// Runs the words: `serve` and `host` between links that give what the lines say, others over a tape of these lines.
pub fn ran(alloc: Global, case: Case<'_>) -> Result<Came, Memory> {
    match case.words {
        ["serve", ..] => served(alloc, case),
        ["host", ..] => ran_between(alloc, case),
        _ => ran_over(alloc, case),
    }
}

/// Between links, and then once more, recorded, where the words are a session's that isn't recorded, and links took all
/// that it sends.
fn served(alloc: Global, case: Case<'_>) -> Result<Came, Memory> {
    let mut came = ran_between(alloc, case)?;
    let is_session = came.status != Status::Usage && !case.words.contains(&"--record");
    if is_session && case.how.budget.is_none() && case.how.unsent.is_none() {
        check_recording(alloc, case, &mut came)?;
    }
    Ok(came)
}

fn ran_over(alloc: Global, case: Case<'_>) -> Result<Came, Memory> {
    let Case { words, lines, how } = case;
    match how.cut {
        Some(later) => {
            let cut = cut_tape(alloc, lines, how.first.unwrap_or(later), later)?;
            over_tape(alloc, words, &cut, how)
        }
        None => over_tape(alloc, words, lines.as_bytes(), how),
    }
}

/// Runs the words over the bytes of a tape.
pub fn over_tape(alloc: Global, words: &[&str], tape: &[u8], how: &How) -> Result<Came, Memory> {
    let fails = how.read_fails;
    let mut source = TextSource::make(alloc, tape, how.read_by.max(1), fails.as_slice())?;
    over_source(alloc, words, &mut source, how)
}

fn over_source(
    alloc: Global,
    words: &[&str],
    source: &mut TextSource,
    how: &How,
) -> Result<Came, Memory> {
    let fails = how.write_fails;
    let mut out = TextSink::make(alloc, how.room, how.write_by.max(1), fails.as_slice())?;
    let mut recording = recording_of(alloc, how)?;
    let status = run(
        alloc,
        words,
        source,
        &mut out,
        &mut NoDoors::new(),
        &mut recording,
    );
    Ok(Came {
        text: String::from_utf8_lossy(alloc, out.held())?,
        is_joined: how.cut.is_some(),
        status,
    })
}
