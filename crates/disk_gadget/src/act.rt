//! What commands do.

ghost use Rattle.std.specs.Prelude.{◌≡◌, ◌≤◌, ◌++◌, ◌+◌, ◌-◌, [], length, take, IfOk, OnOk, OnErr};
ghost use Rattle.std.specs.Int.{w32};
ghost use Rattle.usb_base.specs.Number.{be};
ghost use Rattle.disk_gadget.specs.Accesses.{blocks_after, count_of};
ghost use Rattle.disk_gadget.specs.Acts.{act_of, command_act, is_crossed, is_past_end};
ghost use Rattle.disk_gadget.specs.declared.command.Command.TheVariants.{Read as ReadCommand, Write as WriteCommand};
ghost use Rattle.disk_gadget.specs.declared.report.Status.TheVariants.{Failed, Passed};
ghost use Rattle.disk_gadget.specs.declared.stage.Answer.TheVariants.{Text};

use crate::command::{Command, Extent};
use crate::medium::{BLOCK_SIZE, Medium};
use crate::report::Status;
use crate::sense::{Sense, sense_bytes};
use crate::stage::Answer;
use crate::wrapper::Wrapper;
use std::alloc::Global;
use usb_base::{Bytes, Memory, push_be_u32};

/// Standard INQUIRY data (SPC-4, 6.4.2).
const INQUIRY: [u8; 36] = [
    0x00, 0x80, 0x04, 0x02, 0x1F, 0x00, 0x00, 0x00, // a removable direct-access device
    0x55, 0x53, 0x42, 0x47, 0x41, 0x54, 0x45, 0x20, // vendor `USBGATE `
    0x4D, 0x4F, 0x44, 0x45, 0x4C, 0x20, 0x44, 0x49, // product `MODEL DISK      `
    0x53, 0x4B, 0x20, 0x20, 0x20, 0x20, 0x20, 0x20, //
    0x31, 0x2E, 0x30, 0x20, // revision `1.0 `
];

/// How a command ends, and what it answers.
#[derive(Drop)]
pub struct Acted {
    pub status: Status,
    pub answer: Answer,
}

/// Carries out the wrapper's command, for which the host sent these bytes. For want of memory nothing has changed.
pub fn carry_out(
    alloc: Global,
    sense: &mut Option<Sense>,
    medium: &mut Medium,
    wrapper: &Wrapper,
    bytes: &[u8],
) -> Result<Acted, Memory>
    requires { length bytes.now ≤ wrapper.now.length }
    ensures status { IfOk result (λ act. act.status ≡ (act_of (count_of medium.old) sense.old wrapper.now bytes.now).status) }
    ensures answer { IfOk result (λ act. act.answer ≡ (act_of (count_of medium.old) sense.old wrapper.now bytes.now).answer) }
    ensures sense { OnOk result (sense.new ≡ (act_of (count_of medium.old) sense.old wrapper.now bytes.now).sense) }
    ensures blocks { OnOk result (medium.new ≡ blocks_after medium.old (act_of (count_of medium.old) sense.old wrapper.now bytes.now).access) }
    ensures same_sense { OnErr result (sense.new ≡ sense.old) }
    ensures same_blocks { OnErr result (medium.new ≡ medium.old) }
{
    if is_crossed(wrapper) {
        return Ok(nothing(alloc, Status::PhaseError));
    }
    match wrapper.command {
        Command::TestUnitReady => Ok(nothing(alloc, Status::Passed)),
        Command::RequestSense(most) => {
            let act = text(alloc, &sense_bytes(*sense), most as usize)?;
            *sense = None;
            Ok(act)
        }
        Command::Inquiry { vital: true, .. } => Ok(fail(alloc, sense, Sense::InvalidField)),
        Command::Inquiry { vital: false, most } => text(alloc, &INQUIRY, most as usize),
        Command::ReadCapacity => capacity(alloc, medium.count()),
        Command::Read(extent) => Ok(read(alloc, sense, medium.count(), extent)),
        Command::Write(extent) => Ok(write(alloc, sense, medium, wrapper.length, extent, bytes)),
        Command::Unknown => Ok(fail(alloc, sense, Sense::InvalidCommand)),
    }
}

/// Whether the wrapper moves data the other way than its command does.
fn is_crossed(wrapper: &Wrapper) -> bool
    ensures { result ≡ is_crossed wrapper.now }
{
    if wrapper.length == 0 {
        return false;
    }
    match wrapper.command {
        Command::TestUnitReady | Command::Unknown => false,
        Command::RequestSense(_)
        | Command::Inquiry { .. }
        | Command::ReadCapacity
        | Command::Read(_) => !wrapper.is_in,
        Command::Write(_) => wrapper.is_in,
    }
}

/// Whether some of the blocks stand behind the last of so many.
fn is_past_end(blocks: u32, extent: Extent) -> bool
    ensures { result ≡ is_past_end blocks extent }
{
    u64::from(extent.block) + u64::from(extent.count) > u64::from(blocks)
}

/// An end with no answer.
fn nothing(alloc: Global, status: Status) -> Acted
    ensures { result ≡ record { status = status; answer = Text [] } }
{
    Acted {
        status,
        answer: Answer::Text(Bytes::new(alloc)),
    }
}

/// A failure, and its sense.
fn fail(alloc: Global, sense: &mut Option<Sense>, why: Sense) -> Acted
    ensures act { result ≡ record { status = Failed; answer = Text [] } }
    ensures sense { sense.new ≡ Some why }
{
    *sense = Some(why);
    nothing(alloc, Status::Failed)
}

/// An answer of at most so many of the bytes.
fn text(alloc: Global, bytes: &[u8], most: usize) -> Result<Acted, Memory>
    ensures { IfOk result (λ act. act ≡ record { status = Passed; answer = Text (take most bytes.now) }) }
{
    let mut rest = Bytes::new(alloc);
    rest.append(&bytes[..bytes.len().min(most)])?;
    Ok(Acted {
        status: Status::Passed,
        answer: Answer::Text(rest),
    })
}

/// READ CAPACITY (10): the last block, and the bytes of a block (SBC-3, 5.15).
fn capacity(alloc: Global, blocks: u32) -> Result<Acted, Memory>
    ensures { IfOk result (λ act. act ≡ record { status = Passed; answer = Text (be w32 (blocks - 1) ++ be w32 BLOCK_SIZE) }) }
{
    let mut rest = Bytes::new(alloc);
    push_be_u32(&mut rest, blocks.saturating_sub(1))?;
    push_be_u32(&mut rest, BLOCK_SIZE as u32)?;
    Ok(Acted {
        status: Status::Passed,
        answer: Answer::Text(rest),
    })
}

/// READ (10): the bytes stay where they are until they are given.
fn read(alloc: Global, sense: &mut Option<Sense>, blocks: u32, extent: Extent) -> Acted
    ensures status { result.status ≡ (command_act blocks sense.old 0 [] (ReadCommand extent)).status }
    ensures answer { result.answer ≡ (command_act blocks sense.old 0 [] (ReadCommand extent)).answer }
    ensures sense { sense.new ≡ (command_act blocks sense.old 0 [] (ReadCommand extent)).sense }
{
    if is_past_end(blocks, extent) {
        return fail(alloc, sense, Sense::OutOfRange);
    }
    Acted {
        status: Status::Passed,
        answer: Answer::Blocks {
            block: extent.block,
            given: 0,
            left: BLOCK_SIZE as u32 * u32::from(extent.count),
        },
    }
}

/// WRITE (10), of so many bytes, which have all come.
fn write(
    alloc: Global,
    sense: &mut Option<Sense>,
    medium: &mut Medium,
    moved: u32,
    extent: Extent,
    bytes: &[u8],
) -> Acted
    requires { length bytes.now ≤ moved }
    ensures status { result.status ≡ (command_act (count_of medium.old) sense.old moved bytes.now (WriteCommand extent)).status }
    ensures answer { result.answer ≡ (command_act (count_of medium.old) sense.old moved bytes.now (WriteCommand extent)).answer }
    ensures sense { sense.new ≡ (command_act (count_of medium.old) sense.old moved bytes.now (WriteCommand extent)).sense }
    ensures blocks { medium.new ≡ blocks_after medium.old (command_act (count_of medium.old) sense.old moved bytes.now (WriteCommand extent)).access }
{
    if is_past_end(medium.count(), extent) {
        return fail(alloc, sense, Sense::OutOfRange);
    }
    if moved != BLOCK_SIZE as u32 * u32::from(extent.count) {
        return fail(alloc, sense, Sense::InvalidField);
    }
    medium.put(BLOCK_SIZE * extent.block as usize, bytes);
    nothing(alloc, Status::Passed)
}
