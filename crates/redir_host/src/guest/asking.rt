//! What the packets ask that move data.

ghost use Rattle.std.specs.Prelude.{◌≡◌, ◌==◌, ◌&&◌, None, is_ok, nat_le, nat_lt, if◌then◌else◌};
ghost use Rattle.usb_base.specs.Endpoint.{is_in_endpoint};
ghost use Rattle.usb_base.specs.declared.limits.TheConstants.{MAX_TRANSFER};
ghost use Rattle.redir_host.specs.guest.Asking.{asking_of, asked_if, is_other};
ghost use Rattle.redir_host.specs.inner.Addresses.{byte_of};

use crate::state::request::{Asking, Form};
use redir_data::RedirData;
use usb_base::{Bytes, EpAddr, MAX_TRANSFER, Setup, Transfer, is_in_endpoint};

/// What a packet asks. A packet of an isochronous endpoint, and one of an interrupt endpoint that is to give data, ask
/// nothing: those endpoints are used by starting a stream.
pub fn asking_of(packet: RedirData) -> Asking
    ensures { result ≡ asking_of packet }
{
    match packet {
        RedirData::Control {
            endpoint,
            request,
            kind,
            value,
            index,
            length,
            body,
            ..
        } => {
            let setup = Setup {
                kind,
                request,
                value,
                index,
                length,
            };
            let ep = control_address(&setup, endpoint);
            let form = Form::Control(setup);
            ask(ep, form, Some(setup), u32::from(length), body)
        }
        RedirData::Bulk {
            endpoint,
            length,
            stream,
            body,
            ..
        } => {
            let ep = bulk_address(endpoint, length);
            ask(ep, Form::Bulk { stream }, None, length, body)
        }
        RedirData::Iso { .. } => Asking::Nothing,
        RedirData::Interrupt {
            endpoint,
            length,
            body,
            ..
        } => ask_interrupt(endpoint, length, body),
    }
}

fn ask_interrupt(endpoint: u8, length: u16, body: Bytes) -> Asking
    ensures { result ≡ (if is_in_endpoint endpoint then Asking.Nothing else asked_if (is_other endpoint) Form.Interrupt (record { ep = endpoint; setup = None; wanted = length; body = body })) }
{
    if is_in_endpoint(endpoint) {
        return Asking::Nothing;
    }
    let ep = other_address(endpoint);
    ask(ep, Form::Interrupt, None, u32::from(length), body)
}

/// Endpoint 0 in the direction of this setup, if that is its byte; else the byte.
fn control_address(setup: &Setup, endpoint: u8) -> Result<EpAddr, u8>
    ensures can { is_ok result ≡ (endpoint == (if nat_lt setup.now.kind 128 then 0 else 128)) }
    ensures byte { byte_of result ≡ endpoint }
{
    let ep = EpAddr::control(setup.is_in());
    if ep.byte() == endpoint {
        Ok(ep)
    } else {
        Err(endpoint)
    }
}

/// The address of an endpoint other than 0 for a transfer of this length, if it can be asked for; else its byte.
fn bulk_address(endpoint: u8, length: u32) -> Result<EpAddr, u8>
    ensures can { is_ok result ≡ (is_other endpoint && nat_le length MAX_TRANSFER) }
    ensures byte { byte_of result ≡ endpoint }
{
    if length > MAX_TRANSFER {
        return Err(endpoint);
    }
    other_address(endpoint)
}

/// The address of an endpoint other than 0, if this is its byte; else the byte.
fn other_address(endpoint: u8) -> Result<EpAddr, u8>
    ensures can { is_ok result ≡ is_other endpoint }
    ensures byte { byte_of result ≡ endpoint }
{
    EpAddr::new(endpoint)
        .filter(|ep| !ep.is_control())
        .ok_or(endpoint)
}

/// A transfer of this endpoint, or the refusal of a byte that can't be asked for.
fn ask(ep: Result<EpAddr, u8>, form: Form, setup: Option<Setup>, wanted: u32, body: Bytes) -> Asking
    ensures { result ≡ asked_if (is_ok ep) form (record { ep = byte_of ep; setup = setup; wanted = wanted; body = body }) }
{
    match ep {
        Ok(ep) => Asking::Asks {
            form,
            transfer: Transfer {
                ep,
                setup,
                wanted,
                body,
            },
        },
        Err(endpoint) => Asking::Refuses { form, endpoint },
    }
}
