//! The answers of requests.

ghost use Rattle.std.specs.Prelude.{◌≡◌, ◌++◌, OnOk, OnErr};
ghost use Rattle.std.specs.List.{AllByRecursion};
ghost use Rattle.usb_base.specs.Writes.{Begins};
ghost use Rattle.usb_base.specs.declared.status.UsbStatus.TheVariants.{Inval};
ghost use Rattle.redir_wire.specs.State.{wide_ids};
ghost use Rattle.redir_wire.specs.Header.{IdFits};
ghost use Rattle.chapter9.specs.Standard.{ended};
ghost use Rattle.redir_host.specs.write.Answers.{alt_in, answer, answer_by, cancelled};
ghost use Rattle.redir_data.specs.Sent.{sent_packet_bytes};
ghost use Rattle.redir_host.specs.step.Makes.{AnswerFits, flushed_bytes};
ghost use Rattle.redir_host.specs.state.Sound.{DoneFits};

use crate::device::change::is_touched;
use crate::state::queue::Queue;
use crate::state::request::{Form, Request};
use crate::write::packet::write;
use chapter9::ended;
use control_route::Route;
use redir_data::{RedirData, RedirPacket};
use redir_wire::{Caps, RedirControl};
use std::alloc::Global;
use usb_base::{Bytes, EpTable, Memory, Outcome, UsbStatus};

/// Stands for the configuration where an answer tells none.
const NO_CONFIGURATION: u8 = 0;

/// The answer of a request of this form and endpoint, after which the device has this configuration.
fn answer_of(configuration: u8, form: Form, endpoint: u8, outcome: Outcome) -> RedirPacket
    requires { DoneFits form outcome.done }
    ensures { result ≡ answer_by configuration form endpoint outcome }
{
    let status = outcome.status.to_byte();
    match form {
        Form::Control(setup) => RedirPacket::Carrying(RedirData::Control {
            endpoint,
            request: setup.request,
            kind: setup.kind,
            status,
            value: setup.value,
            index: setup.index,
            length: outcome.done as u16,
            body: outcome.body,
        }),
        Form::Bulk { stream } => RedirPacket::Carrying(RedirData::Bulk {
            endpoint,
            status,
            length: outcome.done,
            stream,
            body: outcome.body,
        }),
        Form::Interrupt => RedirPacket::Carrying(RedirData::Interrupt {
            endpoint,
            status,
            length: outcome.done as u16,
            body: outcome.body,
        }),
        Form::SetConfiguration { .. } | Form::GetConfiguration => {
            RedirPacket::Plain(RedirControl::ConfigurationStatus {
                status,
                configuration,
            })
        }
        Form::SetAlt { interface, alt } => RedirPacket::Plain(RedirControl::AltStatus {
            status,
            interface,
            alt,
        }),
        Form::GetAlt { interface } => RedirPacket::Plain(RedirControl::AltStatus {
            status,
            interface,
            alt: alt_in(&outcome),
        }),
    }
}

/// Appends the answer of a request, after which the device has this configuration, as the guest reads it with these
/// capabilities. For want of memory `out` stands.
pub fn write_answer(
    configuration: u8,
    request: &Request,
    outcome: Outcome,
    caps: Caps,
    out: &mut Bytes,
) -> Result<(), Memory>
    requires id_fits { IdFits (wide_ids caps) request.now.id }
    requires answer_fits { AnswerFits caps request.now.form request.now.transfer.ep outcome }
    ensures ok { OnOk result (out.new ≡ out.old ++ sent_packet_bytes caps (answer configuration request.now outcome)) }
    ensures err { OnErr result (out.new ≡ out.old) }
{
    let endpoint = request.transfer.ep.byte();
    let answer = answer_of(configuration, request.form, endpoint, outcome);
    write(&answer, request.id, caps, out)
}

/// Appends the answer of what can't be asked, in the form that it came by. For want of memory `out` stands.
pub fn write_refused(
    alloc: Global,
    id: u64,
    form: Form,
    endpoint: u8,
    caps: Caps,
    out: &mut Bytes,
) -> Result<(), Memory>
    requires { IdFits (wide_ids caps) id }
    ensures ok { OnOk result (out.new ≡ out.old ++ sent_packet_bytes caps (id, answer_by 0 form endpoint (ended Inval))) }
    ensures err { OnErr result (out.new ≡ out.old) }
{
    let outcome = ended(alloc, UsbStatus::Inval);
    let answer = answer_of(NO_CONFIGURATION, form, endpoint, outcome);
    write(&answer, id, caps, out)
}

/// Appends the answer of a request that was taken out of its queue. For want of memory `out` stands.
pub fn write_cancelled(
    alloc: Global,
    request: &Request,
    caps: Caps,
    out: &mut Bytes,
) -> Result<(), Memory>
    requires { IdFits (wide_ids caps) request.now.id }
    ensures ok { OnOk result (out.new ≡ out.old ++ sent_packet_bytes caps (cancelled request.now)) }
    ensures err { OnErr result (out.new ≡ out.old) }
{
    let outcome = ended(alloc, UsbStatus::Cancelled);
    write_answer(NO_CONFIGURATION, request, outcome, caps, out)
}

/// Appends the answers of the requests that a change touches, by the table before it. For want of memory what was
/// there still stands at the front.
pub fn write_flushed(
    alloc: Global,
    queue: &Queue,
    route: &Route,
    table: &EpTable,
    caps: Caps,
    out: &mut Bytes,
) -> Result<(), Memory>
    requires { AllByRecursion (λ q. IdFits (wide_ids caps) q.id) queue.now }
    ensures ok { OnOk result (out.new ≡ out.old ++ flushed_bytes caps route.now table.now queue.now) }
    ensures err { OnErr result (Begins out.old out.new) }
{
    for request in queue.iter() {
        if is_touched(route, table, request.transfer.ep) {
            write_cancelled(alloc, request, caps, out)?;
        }
    }
    Ok(())
}

/// The alternate setting that a get found.
fn alt_in(outcome: &Outcome) -> u8
    ensures { result ≡ alt_in outcome.now }
{
    match (outcome.status, outcome.body.as_slice()) {
        (UsbStatus::Success, [alt, ..]) => *alt,
        _ => 0,
    }
}
