//! The answers of a request that has ended, by its row among the requests in flight.

ghost use Rattle.std.specs.Prelude.{◌≡◌, ◌++◌, [], pos, OnOk, OnErr, ◌⊎◌, ◌∷◌, map, IfOk, true};
ghost use Rattle.std.specs.List.{flat_map};
ghost use Rattle.usbip_urb.specs.Spelling.{spelling};
ghost use Rattle.gate_history.specs.step.Marks.{Submission};
ghost use Rattle.gate_history.specs.write.Answers.{without_packets, with_outcome, ret_unlink};
ghost use Rattle.gate_history.specs.client.Ends.{answers_by};
ghost use Rattle.gate_history.specs.write.Asked.{asked_view, HasItsPackets, IsMoved};
ghost use Rattle.gate_parts.specs.state.Rows.{IsRowOf, row_request, lost_bytes, row_of, IsRead, row_for, ended_bytes};
ghost use Rattle.usbip_urb.specs.declared.client.ClientPacket.TheVariants.{Urb};
ghost use Rattle.gate_history.specs.declared.note.Note.TheVariants.{Answered};
ghost use Rattle.gate_history.specs.host.Responses.{told_outcome};
ghost use Rattle.gate_parts.specs.host.Responses.{response_view, IsAnswer, IsCounted};
ghost use Rattle.usb_base.specs.Writes.{Begins};
ghost use Rattle.unlink_race.specs.Endings.{ending_of};
ghost use Rattle.unlink_race.specs.Searches.{ended_by};
ghost use Rattle.gate_parts.specs.write.Outputs.{with_answers};

use crate::host::response::{Response, told_outcome};
use crate::write::answer::{write_outcome, write_ret_unlink, write_without_packets};
use crate::write::outputs::Outputs;
use gate_history::{AnsweredSubmit, Note, Request};
use std::alloc::Global;
use unlink_race::{Ending, Live, LiveKind, StreamEnd, ending_of};
use usb_base::errno::{ECONNRESET, ESHUTDOWN};
use usb_base::{Bytes, Memory, Outcome};

/// What the answer of a request in flight has of its submit.
pub fn asked_by(live: &Live) -> AnsweredSubmit<'_>
    ensures { asked_view result ≡ row_request live.now }
{
    AnsweredSubmit {
        seqnum: live.seqnum,
        is_in: live.is_in,
        flags: live.flags,
        packets: live.packets,
        wanted: live.wanted,
        descs: live.descs.as_slice(),
    }
}

/// Appends the answer of a request whose device is lost: its unlink's where it was asked back, and else its own. For
/// want of memory `out` stands.
pub fn write_lost(alloc: Global, live: &Live, out: &mut Bytes) -> Result<(), Memory>
    requires { HasItsPackets live.now.packets live.now.descs }
    ensures ok { OnOk result (out.new ≡ out.old ++ lost_bytes live.now) }
    ensures err { OnErr result (out.new ≡ out.old) }
{
    match live.unlinker {
        None => write_ended(alloc, live, ESHUTDOWN, out),
        Some(by) => write_ret_unlink(by, ECONNRESET, out),
    }
}

/// Appends the answer of a request that ends with this status, without its packets. For want of memory `out` stands.
fn write_ended(alloc: Global, live: &Live, status: i32, out: &mut Bytes) -> Result<(), Memory>
    requires { HasItsPackets live.now.packets live.now.descs }
    ensures ok { OnOk result (out.new ≡ out.old ++ spelling (without_packets (row_request live.now) status)) }
    ensures err { OnErr result (out.new ≡ out.old) }
{
    write_without_packets(alloc, &asked_by(live), status, out)
}

/// Appends the answers of a request that the host has answered so: its own, its unlink's, or both. The outcome's body
/// is moved to `out`, by one copy where it is short; `out` stands for want of memory. It gives how the request ends.
fn write_answers(
    alloc: Global,
    live: &Live,
    outcome: Outcome,
    out: &mut Bytes,
) -> Result<Ending, Memory>
    requires asked { HasItsPackets live.now.packets live.now.descs }
    requires moved { IsMoved live.now.is_in outcome }
    ensures ending { IfOk result (λ ending. ending ≡ ending_of live.now.unlinker live.now.kind outcome.status) }
    ensures ok { (s : Submission) → IsRowOf s live.now → OnOk result (out.new ≡ out.old ++ flat_map spelling (answers_by s outcome live.now.unlinker)) }
    ensures err { OnErr result (out.new ≡ out.old) }
{
    let asked = asked_by(live);
    let ending = ending_of(live, outcome.status);
    match ending {
        Ending::Completed => write_outcome(alloc, &asked, outcome, out)?,
        Ending::Unlinked { by } => write_ret_unlink(by, ECONNRESET, out)?,
        Ending::CompletedThenLate { by } => write_late(alloc, &asked, outcome, by, out)?,
    }
    Ok(ending)
}

/// The unlink `by` came too late.
fn write_late(
    alloc: Global,
    asked: &AnsweredSubmit,
    outcome: Outcome,
    by: u32,
    out: &mut Bytes,
) -> Result<(), Memory>
    requires asked { HasItsPackets asked.now.packets asked.now.descs.now }
    requires moved { IsMoved asked.now.is_in outcome }
    ensures ok { OnOk result (out.new ≡ out.old ++ (spelling (with_outcome (asked_view asked.now) outcome) ++ spelling (ret_unlink by (pos 0)))) }
    ensures err { OnErr result (out.new ≡ out.old) }
{
    let before = out.len();
    write_outcome(alloc, asked, outcome, out)?;
    let answered = write_ret_unlink(by, 0, out);
    out.cut_on_err(before, answered)
}

/// Tells that a request was answered, and appends its answers. It gives how the request ends.
pub fn write_completed(
    alloc: Global,
    live: &Live,
    response: Response,
    out: &mut Outputs,
) -> Result<Ending, Memory>
    requires packets { HasItsPackets live.now.packets live.now.descs }
    requires read { (live.now.wanted ≡ 0) ⊎ IsRead live.now.is_in live.now.kind }
    requires answer { IsAnswer live.now (response_view response) }
    ensures ok { (s : Submission) → row_of s live.now.unlinker ≡ live.now
        → OnOk result (out.new ≡ with_answers out.old (flat_map spelling (answers_by s (told_outcome s.request s.verdict (response_view response)) live.now.unlinker)) (Answered live.now.seqnum ∷ [])) }
    ensures counted { (s : Submission) → row_of s live.now.unlinker ≡ live.now
        → IfOk result (IsCounted (map Urb (answers_by s (told_outcome s.request s.verdict (response_view response)) live.now.unlinker))) }
    ensures err { OnErr result (out.new ≡ record out.old { notes = out.new.notes }) }
    ensures err_notes { OnErr result (Begins out.old.notes out.new.notes) }
{
    let outcome = told_outcome(alloc, live, response)?;
    out.notes.push(Note::Answered {
        seqnum: live.seqnum,
    })?;
    write_answers(alloc, live, outcome, &mut out.to_client)
}

/// Appends the answer of a request whose stream ends so, and nothing for any other.
pub fn write_end_of(
    alloc: Global,
    live: &Live,
    end: &StreamEnd,
    status: i32,
    to_client: &mut Bytes,
) -> Result<(), Memory>
    requires { HasItsPackets live.now.packets live.now.descs }
    ensures ok { OnOk result (to_client.new ≡ to_client.old ++ ended_bytes end.now status live.now) }
    ensures err { OnErr result (to_client.new ≡ to_client.old) }
    ensures wants { OnErr result (ended_by end.now live.now ≡ true) }
{
    if live.kind.ends_with(end) {
        write_ended(alloc, live, status, to_client)
    } else {
        Ok(())
    }
}

/// The row of a request that goes as one of this kind, under this id.
pub fn row_for(request: Request, kind: LiveKind, id: u64) -> Live
    ensures { result ≡ row_for request kind id }
{
    Live {
        seqnum: request.seqnum,
        id,
        kind,
        is_in: request.is_in,
        wanted: request.transfer.wanted,
        flags: request.flags,
        packets: request.packets,
        descs: request.descs,
        unlinker: None,
    }
}
