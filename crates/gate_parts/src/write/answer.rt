//! The answers of submits and unlinks ("usbip_protocol", USBIP_RET_SUBMIT and USBIP_RET_UNLINK).

ghost use Rattle.usb_base.specs.declared.limits.TheConstants.{MAX_TRANSFER, MAX_PACKETS};
ghost use Rattle.usbip_urb.specs.Buffers.{laid};
ghost use Rattle.usbip_urb.specs.Errors.{errors_of};
ghost use Rattle.std.specs.Prelude.{◌≡◌, false, IsTrue, ◌++◌, ◌≤◌, ◌<◌, length, OnOk, OnErr, IfOk};
ghost use Rattle.usbip_urb.specs.Spelling.{spelling};
ghost use Rattle.usbip_urb.specs.declared.packet.UrbPacket.TheVariants.{RetSubmit as RetSubmitPacket};
ghost use Rattle.gate_history.specs.write.Answers.{answer_head, told_status, ret_submit, ret_unlink, echoed, without_packets, sent_whole, all_sent, with_outcome};
ghost use Rattle.gate_history.specs.write.Asked.{asked_view, HasItsPackets, IsMoved};

use gate_history::AnsweredSubmit;
use std::alloc::Global;
use usb_base::errno::EREMOTEIO;
use usb_base::{Bytes, Memory, Outcome};
use usbip_urb::{
    Descs, Head, IsoDesc, RetSubmit, RetUnlink, UrbPacket, total, write_ret_submit, write_urb,
};

/// Appends the answer of a submit that ends without its packets. For want of memory `out` stands.
pub fn write_without_packets(
    alloc: Global,
    asked: &AnsweredSubmit,
    status: i32,
    out: &mut Bytes,
) -> Result<(), Memory>
    requires { HasItsPackets asked.now.packets asked.now.descs.now }
    ensures ok { OnOk result (out.new ≡ out.old ++ spelling (without_packets (asked_view asked.now) status)) }
    ensures err { OnErr result (out.new ≡ out.old) }
{
    let descs = echoed(alloc, asked.descs, status)?;
    let answer = ret_submit(asked, status, 0, Bytes::new(alloc), descs);
    write_ret_submit(answer, out)
}

/// Appends the answer of an isochronous submit whose packets were all sent to the host. For want of memory `out`
/// stands.
pub fn write_all_sent(alloc: Global, asked: &AnsweredSubmit, out: &mut Bytes) -> Result<(), Memory>
    requires packets { HasItsPackets asked.now.packets asked.now.descs.now }
    requires to_device { asked.now.is_in ≡ false }
    requires lies { IsTrue (laid asked.now.descs.now asked.now.wanted) }
    requires few_bytes { asked.now.wanted ≤ MAX_TRANSFER }
    ensures ok { OnOk result (out.new ≡ out.old ++ spelling (all_sent (asked_view asked.now))) }
    ensures err { OnErr result (out.new ≡ out.old) }
{
    let descs = sent_whole(alloc, asked.descs)?;
    let actual = total(&descs) as u32;
    let answer = ret_submit(asked, 0, actual, Bytes::new(alloc), descs);
    write_ret_submit(answer, out)
}

/// Appends the answer of a submit by what came of its transfer, whose body is moved. For want of memory `out` stands.
pub fn write_outcome(
    alloc: Global,
    asked: &AnsweredSubmit,
    outcome: Outcome,
    out: &mut Bytes,
) -> Result<(), Memory>
    requires asked { HasItsPackets asked.now.packets asked.now.descs.now }
    requires moved { IsMoved asked.now.is_in outcome }
    ensures ok { OnOk result (out.new ≡ out.old ++ spelling (with_outcome (asked_view asked.now) outcome)) }
    ensures err { OnErr result (out.new ≡ out.old) }
{
    let status = outcome.status.errno();
    let descs = echoed(alloc, asked.descs, status)?;
    let answer = ret_submit(asked, status, outcome.done, outcome.body, descs);
    write_ret_submit(answer, out)
}

/// Appends the answer of the unlink with this number: the status is -104 (ECONNRESET) where it won, and else 0. For
/// want of memory `out` stands.
pub fn write_ret_unlink(seqnum: u32, status: i32, out: &mut Bytes) -> Result<(), Memory>
    ensures ok { OnOk result (out.new ≡ out.old ++ spelling (ret_unlink seqnum status)) }
    ensures err { OnErr result (out.new ≡ out.old) }
{
    let answer = RetUnlink {
        head: answer_head(seqnum),
        status,
        pad: [0; 24],
    };
    write_urb(&UrbPacket::RetUnlink(answer), out)
}

/// An answer has its request's number, and zeros in the other fields of its head.
fn answer_head(seqnum: u32) -> Head
    ensures { result ≡ answer_head seqnum }
{
    Head {
        seqnum,
        devid: 0,
        direction: 0,
        ep: 0,
    }
}

/// The answer of a submit that ends with this status, so many bytes moved, and these isochronous packets.
pub fn ret_submit(
    asked: &AnsweredSubmit,
    status: i32,
    actual: u32,
    body: Bytes,
    descs: Descs,
) -> RetSubmit
    requires { length descs ≤ MAX_PACKETS }
    ensures { RetSubmitPacket result ≡ ret_submit (asked_view asked.now) status actual body descs }
{
    RetSubmit {
        head: answer_head(asked.seqnum),
        status: told_status(asked, status, actual),
        actual,
        start_frame: 0,
        packets: asked.packets,
        errors: errors(descs.as_slice()),
        tail: [0; 8],
        body,
        descs,
    }
}

/// A short read has failed where the client says so.
fn told_status(asked: &AnsweredSubmit, status: i32, actual: u32) -> i32
    ensures { result ≡ told_status (asked_view asked.now) status actual }
{
    let is_short = asked.is_in && asked.descs.is_empty() && status == 0 && actual < asked.wanted;
    if is_short && asked.fails_if_short() {
        EREMOTEIO
    } else {
        status
    }
}

/// How many isochronous packets have a status other than 0.
fn errors(descs: &[IsoDesc]) -> u32
    requires { length descs.now ≤ MAX_PACKETS }
    ensures { result ≡ errors_of descs.now }
{
    descs.iter().filter(|desc| desc.is_failed()).count() as u32
}

/// Isochronous packets of which nothing came have the request's status.
fn echoed(alloc: Global, descs: &[IsoDesc], status: i32) -> Result<Descs, Memory>
    ensures ok { IfOk result (λ echo. echo ≡ echoed status descs.now) }
    ensures err { OnErr result (0 < length descs.now) }
{
    let mut echo = Descs::new(alloc);
    for desc in descs {
        echo.push(IsoDesc {
            actual: 0,
            status,
            ..*desc
        })?;
    }
    Ok(echo)
}

/// Isochronous packets that were all sent.
fn sent_whole(alloc: Global, descs: &[IsoDesc]) -> Result<Descs, Memory>
    ensures ok { IfOk result (λ sent. sent ≡ sent_whole descs.now) }
    ensures err { OnErr result (0 < length descs.now) }
{
    let mut sent = Descs::new(alloc);
    for desc in descs {
        sent.push(IsoDesc {
            actual: desc.length,
            status: 0,
            ..*desc
        })?;
    }
    Ok(sent)
}
