//! What is recorded of an event.

ghost use Rattle.std.specs.Prelude.{◌≡◌, ◌++◌, ◌||◌, not, ℕ, List as ListOf, true, OnOk, OnErr, IfErr, IfSome};
ghost use Rattle.std.specs.List.{flat_map};
ghost use Rattle.std.specs.Io.KnownBytes.{append_known};
ghost use Rattle.usb_base.specs.Lists.{is_empty};
ghost use Rattle.session_tape.specs.Lines.{refusal_comment};
ghost use Rattle.session_tape.specs.Tapes.{GrowsInPart};
ghost use Rattle.bridge_run.specs.events.Events.{event_of};
ghost use Rattle.bridge_run.specs.events.RanOut.{is_recorded};
ghost use Rattle.bridge_run.specs.written.Recorded.{event_line, lines_of, is_full as are_full, written_if, waiting_if};
ghost use Rattle.bridge_run.specs.inner.Coming.{CanRecord, event_with};
ghost use Rattle.bridge_run.specs.inner.Follows.{IsCutEnd};
ghost use Rattle.bridge_run.specs.inner.Recording.{TapeFaults};

use crate::course::serve_end::ServeEnd;
use crate::events::coming::Coming;
use crate::events::event::LinkEvent;
use crate::events::sent::Sent;
use session_tape::{Tape, push_end, push_piece, push_refusal};
use std::alloc::Global;
use usb_base::{Bytes, List, Memory, Refusal};

/// So many bytes of lines are written though they aren't due: fewer may wait.
pub const WAITING_LIMIT: usize = 65_536;

/// Puts the event's line behind those that wait, where the tape is made, and a comment for each refusal that it sends.
/// Where they are due, or 64 KiB wait, all of them are written to the tape.
fn record_event<T: Tape>(
    alloc: Global,
    event: LinkEvent,
    sent: &Sent,
    due: bool,
    waiting: &mut Bytes,
    tape: &mut T,
) -> Result<(), ServeEnd>
    ensures ok { OnOk result (T.contents tape.new ≡ append_known (T.contents tape.old) (written_if (due || are_full (waiting.old ++ lines_of (event_of event.entry) sent.now.refusals)) (waiting.old ++ lines_of (event_of event.entry) sent.now.refusals))) }
    ensures waits { OnOk result (IfSome (T.contents tape.new) (λ held. waiting.new ≡ waiting_if (due || are_full (waiting.old ++ lines_of (event_of event.entry) sent.now.refusals)) (waiting.old ++ lines_of (event_of event.entry) sent.now.refusals))) }
    ensures err { OnErr result (GrowsInPart (T.contents tape.old) (T.contents tape.new) (written_if (due || are_full (waiting.old ++ lines_of (event_of event.entry) sent.now.refusals)) (waiting.old ++ lines_of (event_of event.entry) sent.now.refusals))) }
    ensures made { T.made tape.new ≡ T.made tape.old }
    ensures cause { TapeFaults result (T.counts tape.old) (T.counts tape.new) }
    ensures cut { IfErr result IsCutEnd }
    ensures wants { IfErr result (λ end. end ≡ ServeEnd.Memory → (T.made tape.old ≡ true) × ((is_recorded (event_of event.entry) || not (is_empty sent.now.refusals)) ≡ true)) }
{
    if !tape.is_made() {
        return Ok(());
    }
    push_event(event, waiting)?;
    push_refusals(alloc, &sent.refusals, waiting)?;
    let is_due = due || is_full(waiting);
    write_waiting(is_due, waiting, tape)
}

/// Records an event that comes, as `record_event` says. Where its bytes were taken no tape is made.
pub fn record_coming<T: Tape>(
    alloc: Global,
    coming: Coming,
    sent: &Sent,
    due: bool,
    waiting: &mut Bytes,
    tape: &mut T,
) -> Result<(), ServeEnd>
    requires { CanRecord coming (T.made tape.old) (T.contents tape.old) }
    ensures ok { OnOk result ((piece : ListOf ℕ) → T.contents tape.new ≡ append_known (T.contents tape.old) (written_if (due || are_full (waiting.old ++ lines_of (event_with piece coming.entry) sent.now.refusals)) (waiting.old ++ lines_of (event_with piece coming.entry) sent.now.refusals))) }
    ensures waits { OnOk result ((piece : ListOf ℕ) → IfSome (T.contents tape.new) (λ held. waiting.new ≡ waiting_if (due || are_full (waiting.old ++ lines_of (event_with piece coming.entry) sent.now.refusals)) (waiting.old ++ lines_of (event_with piece coming.entry) sent.now.refusals))) }
    ensures err { OnErr result ((piece : ListOf ℕ) → GrowsInPart (T.contents tape.old) (T.contents tape.new) (written_if (due || are_full (waiting.old ++ lines_of (event_with piece coming.entry) sent.now.refusals)) (waiting.old ++ lines_of (event_with piece coming.entry) sent.now.refusals))) }
    ensures made { T.made tape.new ≡ T.made tape.old }
    ensures cause { TapeFaults result (T.counts tape.old) (T.counts tape.new) }
    ensures cut { IfErr result IsCutEnd }
    ensures wants { IfErr result (λ end. (piece : ListOf ℕ) → end ≡ ServeEnd.Memory → (T.made tape.old ≡ true) × ((is_recorded (event_with piece coming.entry) || not (is_empty sent.now.refusals)) ≡ true)) }
{
    match coming {
        Coming::Event(event) => record_event(alloc, event, sent, due, waiting, tape),
        Coming::Taken(_, _) => Ok(()),
    }
}

/// Writes the lines that wait to the tape, where they are due and it is made. Then none wait.
pub fn write_waiting<T: Tape>(due: bool, waiting: &mut Bytes, tape: &mut T) -> Result<(), ServeEnd>
    ensures ok { OnOk result (T.contents tape.new ≡ append_known (T.contents tape.old) (written_if due waiting.old)) }
    ensures waits { OnOk result (IfSome (T.contents tape.new) (λ held. waiting.new ≡ waiting_if due waiting.old)) }
    ensures err { OnErr result (GrowsInPart (T.contents tape.old) (T.contents tape.new) (written_if due waiting.old)) }
    ensures made { T.made tape.new ≡ T.made tape.old }
    ensures cause { TapeFaults result (T.counts tape.old) (T.counts tape.new) }
    ensures cut { IfErr result IsCutEnd }
    ensures fault { IfErr result (λ end. end ≡ ServeEnd.WriteFault) }
    ensures wanted { OnErr result ((due ≡ true) × (T.made tape.old ≡ true)) }
{
    if !due || !tape.is_made() {
        return Ok(());
    }
    match tape.put(waiting.as_slice()) {
        Ok(()) => {
            waiting.clear();
            Ok(())
        }
        Err(_) => Err(ServeEnd::WriteFault),
    }
}

/// Whether so many bytes wait that they are written though they aren't due.
fn is_full(waiting: &Bytes) -> bool
    ensures { result ≡ are_full waiting.now }
{
    waiting.len() >= WAITING_LIMIT
}

fn push_event(event: LinkEvent, text: &mut Bytes) -> Result<(), Memory>
    ensures pushed { OnOk result (text.new ≡ text.old ++ event_line (event_of event.entry)) }
    ensures wants { OnErr result (is_recorded (event_of event.entry) ≡ true) }
{
    match event {
        LinkEvent::ClientComes | LinkEvent::ClientQuiet => Ok(()),
        LinkEvent::SidePiece(side, bytes) => push_piece(side, bytes, text),
        LinkEvent::SideEnd(side) => push_end(side, text),
    }
}

fn push_refusals(alloc: Global, refusals: &List<Refusal>, text: &mut Bytes) -> Result<(), Memory>
    ensures pushed { OnOk result (text.new ≡ text.old ++ flat_map refusal_comment refusals.now) }
    ensures wants { OnErr result (not (is_empty refusals.now) ≡ true) }
{
    for refusal in refusals.as_slice() {
        push_refusal(alloc, refusal, text)?;
    }
    Ok(())
}
