//! Transfers of the bulk endpoints, stage by stage (Bulk-Only Transport, 5.3).

ghost use Rattle.std.specs.Prelude.{◌≡◌, ◌≤◌, ◌+◌, ◌++◌, ◌==◌, [], length, min, OnOk, OnErr, IfOk, IsSome, if◌then◌else◌};
ghost use Rattle.chapter9.specs.Standard.{success};
ghost use Rattle.disk_gadget.specs.Accesses.{blocks_after, count_of};
ghost use Rattle.disk_gadget.specs.Acts.{act_of};
ghost use Rattle.disk_gadget.specs.DiskStep.{both_halted, outcome_in};
ghost use Rattle.disk_gadget.specs.Inside.{report_due, turn_blocks, turn_course, turn_device, turn_outcome};
ghost use Rattle.disk_gadget.specs.Turns.{begun, given_by, given_of, left_of, less, rest_of, taken_by};
ghost use Rattle.disk_gadget.specs.Within.{AnswerWithin, IsWithin};

use crate::act::carry_out;
use crate::medium::Medium;
use crate::report::Report;
use crate::sense::Sense;
use crate::stage::{Answer, Course, Stage};
use crate::wrapper::Wrapper;
use chapter9::{DevState, stall, success, taken};
use std::alloc::Global;
use usb_base::{Bytes, EpAddr, Memory, Outcome};

/// How many bytes a status has.
const STATUS: u32 = 13;

/// Takes a transfer to the device, or answers None where none is due. Then, and for want of memory, which only one
/// that is due takes, nothing has changed.
pub fn take(
    alloc: Global,
    device: &mut DevState,
    course: &mut Course,
    medium: &mut Medium,
    body: &Bytes,
) -> Result<Option<Outcome>, Memory>
    requires { IsWithin (length medium.old) course.old.stage }
    ensures within { IsWithin (length medium.new) course.new.stage }
    ensures outcome { IfOk result (λ outcome. outcome ≡ turn_outcome medium.old (taken_by (count_of medium.old) course.old.sense body.now course.old.stage)) }
    ensures device { OnOk result (device.new ≡ turn_device device.old (taken_by (count_of medium.old) course.old.sense body.now course.old.stage)) }
    ensures course { OnOk result (course.new ≡ turn_course course.old (taken_by (count_of medium.old) course.old.sense body.now course.old.stage)) }
    ensures blocks { OnOk result (medium.new ≡ turn_blocks medium.old (taken_by (count_of medium.old) course.old.sense body.now course.old.stage)) }
    ensures same_device { OnErr result (device.new ≡ device.old) }
    ensures same_course { OnErr result (course.new ≡ course.old) }
    ensures same_blocks { OnErr result (medium.new ≡ medium.old) }
    ensures thrifty { OnErr result (IsSome (taken_by (count_of medium.old) course.old.sense body.now course.old.stage)) }
{
    match &mut course.stage {
        Stage::Waits => match Wrapper::read(body.as_slice()) {
            Some(wrapper) => {
                begin(alloc, course, medium, wrapper)?;
                Ok(Some(taken(alloc, body.len() as u32)))
            }
            None => {
                halt_both(device);
                Ok(Some(stall(alloc)))
            }
        },
        Stage::Gathers(wrapper, bytes) => {
            if body.len() > wrapper.length as usize - bytes.len() {
                return Ok(Some(stall(alloc)));
            }
            if let Some(report) = gather(
                alloc,
                &mut course.sense,
                medium,
                wrapper,
                bytes,
                body.as_slice(),
            )? {
                course.stage = Stage::Reports(report);
            }
            Ok(Some(taken(alloc, body.len() as u32)))
        }
        Stage::Gives(..) | Stage::Reports(_) => Ok(None),
    }
}

/// Gives a transfer from the device its bytes, or answers None where none are due. Then, and for want of memory, which
/// only one that is due takes, nothing has changed.
pub fn give(
    alloc: Global,
    course: &mut Course,
    medium: &Medium,
    wanted: u32,
) -> Result<Option<Outcome>, Memory>
    requires { IsWithin (length medium.now) course.old.stage }
    ensures within { IsWithin (length medium.now) course.new.stage }
    ensures outcome { IfOk result (λ outcome. outcome ≡ turn_outcome medium.now (given_by course.old.sense wanted course.old.stage)) }
    ensures course { OnOk result (course.new ≡ turn_course course.old (given_by course.old.sense wanted course.old.stage)) }
    ensures same_course { OnErr result (course.new ≡ course.old) }
    ensures thrifty { OnErr result (IsSome (given_by course.old.sense wanted course.old.stage)) }
{
    match &mut course.stage {
        Stage::Waits | Stage::Gathers(..) => Ok(None),
        Stage::Gives(answer, report) => {
            let body = give_answer(alloc, answer, report, medium, wanted)?;
            if body.len() < wanted as usize || report.residue == 0 {
                course.stage = Stage::Reports(*report);
            }
            Ok(Some(success(body)))
        }
        Stage::Reports(_) if wanted < STATUS => Ok(Some(stall(alloc))),
        Stage::Reports(report) => {
            let body = report.bytes(alloc)?;
            course.stage = Stage::Waits;
            Ok(Some(success(body)))
        }
    }
}

/// Gives the next bytes of an answer, and takes them off the report's residue.
fn give_answer(
    alloc: Global,
    answer: &mut Answer,
    report: &mut Report,
    medium: &Medium,
    wanted: u32,
) -> Result<Bytes, Memory>
    requires { AnswerWithin (length medium.now) report.old.residue answer.old }
    ensures within { AnswerWithin (length medium.now) report.new.residue answer.new }
    ensures bytes { IfOk result (λ bytes. outcome_in medium.now (given_of (min wanted (left_of answer.old)) answer.old) ≡ success bytes) }
    ensures count { IfOk result (λ bytes. length bytes ≡ min wanted (left_of answer.old)) }
    ensures answer { OnOk result (answer.new ≡ rest_of (min wanted (left_of answer.old)) answer.old) }
    ensures report { OnOk result (report.new ≡ less (min wanted (left_of answer.old)) report.old) }
    ensures same_answer { OnErr result (answer.new ≡ answer.old) }
    ensures same_report { OnErr result (report.new ≡ report.old) }
{
    let count = (wanted as usize).min(answer.left()) as u32;
    let bytes = answer.bytes(alloc, medium, count)?;
    answer.skip(count);
    report.residue -= count;
    Ok(bytes)
}

/// Begins a command. One without data acts at once, and so does one that answers.
fn begin(
    alloc: Global,
    course: &mut Course,
    medium: &mut Medium,
    wrapper: Wrapper,
) -> Result<(), Memory>
    ensures within { OnOk result (IsWithin (length medium.new) course.new.stage) }
    ensures course { OnOk result (course.new ≡ (begun (count_of medium.old) course.old.sense [] (Some wrapper)).course) }
    ensures blocks { OnOk result (medium.new ≡ blocks_after medium.old (begun (count_of medium.old) course.old.sense [] (Some wrapper)).access) }
    ensures same_course { OnErr result (course.new ≡ course.old) }
    ensures same_blocks { OnErr result (medium.new ≡ medium.old) }
{
    if wrapper.length > 0 && !wrapper.is_in {
        course.stage = Stage::Gathers(wrapper, Bytes::new(alloc));
        return Ok(());
    }
    let act = carry_out(alloc, &mut course.sense, medium, &wrapper, &[])?;
    if wrapper.length == 0 {
        course.stage = Stage::Reports(wrapper.report(act.status));
        return Ok(());
    }
    let report = Report {
        tag: wrapper.tag,
        residue: wrapper.length,
        status: act.status,
    };
    course.stage = Stage::Gives(act.answer.cut(wrapper.length), report);
    Ok(())
}

/// Takes data of the host. Where they are whole the command acts, and its report is due.
fn gather(
    alloc: Global,
    sense: &mut Option<Sense>,
    medium: &mut Medium,
    wrapper: &Wrapper,
    bytes: &mut Bytes,
    body: &[u8],
) -> Result<Option<Report>, Memory>
    requires { length bytes.old + length body.now ≤ wrapper.now.length }
    ensures bytes { OnOk result (bytes.new ≡ bytes.old ++ body.now) }
    ensures report { IfOk result (λ report. report ≡ report_due (length bytes.old + length body.now == wrapper.now.length) wrapper.now (act_of (count_of medium.old) sense.old wrapper.now (bytes.old ++ body.now))) }
    ensures sense { OnOk result (sense.new ≡ (if length bytes.old + length body.now == wrapper.now.length then (act_of (count_of medium.old) sense.old wrapper.now (bytes.old ++ body.now)).sense else sense.old)) }
    ensures blocks { OnOk result (medium.new ≡ (if length bytes.old + length body.now == wrapper.now.length then blocks_after medium.old (act_of (count_of medium.old) sense.old wrapper.now (bytes.old ++ body.now)).access else medium.old)) }
    ensures same_bytes { OnErr result (bytes.new ≡ bytes.old) }
    ensures same_sense { OnErr result (sense.new ≡ sense.old) }
    ensures same_blocks { OnErr result (medium.new ≡ medium.old) }
{
    let before = bytes.len();
    bytes.append(body)?;
    if bytes.len() < wrapper.length as usize {
        return Ok(None);
    }
    let carried = carry_out(alloc, sense, medium, wrapper, bytes.as_slice());
    let act = bytes.cut_on_err(before, carried)?;
    Ok(Some(wrapper.report(act.status)))
}

fn halt_both(device: &mut DevState)
    ensures { device.new ≡ both_halted device.old }
{
    device.halt(EpAddr::new(0x01).unwrap());
    device.halt(EpAddr::new(0x81).unwrap());
}
