//! The packets of the host that answer a request by its id: whether each is that of its request, and what came of the
//! transfer.

ghost use Rattle.std.specs.Prelude.{◌≡◌, ◌<◌, ◌+◌, true, option_map, IfSome, IfOk, OnErr};
ghost use Rattle.usb_base.specs.declared.side.Side.TheVariants.{Host};
ghost use Rattle.gate_history.specs.declared.request.Request.{Request};
ghost use Rattle.gate_history.specs.declared.verdict.Verdict.{Verdict};
ghost use Rattle.redir_data.specs.declared.packet.RedirPacket.TheVariants.{Plain, Carrying};
ghost use Rattle.gate_history.specs.host.Responses.{Data, outcome, response_of, wire_answer, route_answer, mismatch, mismatched, route_gets, gets as gets_value, told_outcome};
ghost use Rattle.gate_parts.specs.host.Responses.{response_view, has_succeeded, status_outcome, row_answer, row_ep, row_gets, expected_by, stream_in, packet_in};
ghost use Rattle.redir_wire.specs.Header.{head_size};
ghost use Rattle.gate_history.specs.state.Flight.{wide_ids};

use control_route::Route;
use redir_data::{RedirData, StreamKind};
use redir_wire::{Caps, DataKind, PlainKind, RedirControl, RedirState, header_size};
use std::alloc::Global;
use unlink_race::{Live, LiveKind};
use usb_base::{
    Bytes, EpKind, Memory, Outcome, Reason, Refusal, Side, StreamPacket, UsbStatus, is_in_endpoint,
};

/// A packet of the host that answers a request by its id.
#[derive(Drop)]
pub enum Response {
    /// A data packet of this endpoint, whose length stands so many bytes behind its header.
    Data {
        endpoint: u8,
        length_place: u64,
        outcome: Outcome,
    },
    /// The status of a configuration or an alternate setting, which tells its value.
    Status {
        status: u8,
        value: u8,
    },
}

/// What a packet that moves no data is as an answer, if it is one.
pub fn status_of(packet: &RedirControl) -> Option<Response>
    ensures { option_map response_view result ≡ response_of (Plain packet.now) }
{
    match packet {
        RedirControl::ConfigurationStatus {
            status,
            configuration,
        } => Some(Response::Status {
            status: *status,
            value: *configuration,
        }),
        RedirControl::AltStatus { status, alt, .. } => Some(Response::Status {
            status: *status,
            value: *alt,
        }),
        _ => None,
    }
}

/// What a data packet is as an answer, if it is one: an interrupt or isochronous packet of an IN endpoint is one of a
/// stream. Its data are moved.
pub fn data_of(packet: RedirData) -> Option<Response>
    ensures { option_map response_view result ≡ response_of (Carrying packet) }
{
    match packet {
        RedirData::Control {
            endpoint,
            status,
            length,
            body,
            ..
        } => Some(data(endpoint, 8, status, u32::from(length), body)),
        RedirData::Bulk {
            endpoint,
            status,
            length,
            body,
            ..
        } => Some(data(endpoint, 2, status, length, body)),
        RedirData::Interrupt {
            endpoint,
            status,
            length,
            body,
        } if !is_in_endpoint(endpoint) => {
            Some(data(endpoint, 2, status, u32::from(length), body))
        }
        _ => None,
    }
}

fn data(endpoint: u8, length_place: u64, status: u8, done: u32, body: Bytes) -> Response
    ensures { response_view result ≡ Data endpoint length_place (outcome status done body) }
{
    Response::Data {
        endpoint,
        length_place,
        outcome: Outcome {
            status: UsbStatus::from_byte(status),
            done,
            body,
        },
    }
}

// ---- whether it is the answer of the request that has its id

/// The type of the packet that answers a request in flight by its id.
fn answer_kind(kind: &LiveKind) -> u32
    ensures { result ≡ row_answer kind.now }
{
    match kind {
        LiveKind::Wire { kind, .. } => wire_answer(*kind).row().number,
        LiveKind::Routed(route) => route_answer(route).row().number,
        LiveKind::Stream { .. } => 0,
    }
}

/// The type of the packet that answers a transfer on the wire.
fn wire_answer(kind: EpKind) -> DataKind
    ensures { result ≡ wire_answer kind }
{
    match kind {
        EpKind::Control => DataKind::Control,
        EpKind::Interrupt => DataKind::Interrupt,
        EpKind::Bulk | EpKind::Iso | EpKind::Invalid => DataKind::Bulk,
    }
}

/// The type of the packet that answers a route's.
fn route_answer(route: &Route) -> PlainKind
    ensures { result ≡ route_answer route.now }
{
    match route {
        Route::SetAlt { .. } | Route::GetAlt(_) => PlainKind::AltStatus,
        _ => PlainKind::ConfigurationStatus,
    }
}

/// The endpoint of a request in flight, which for a route is 0.
fn endpoint(kind: &LiveKind) -> u8
    ensures { result ≡ row_ep kind.now }
{
    match kind {
        LiveKind::Wire { ep, .. } | LiveKind::Stream { ep, .. } => ep.byte(),
        LiveKind::Routed(_) => 0,
    }
}

/// What is wrong of the answer of a request first, its type, its endpoint or its length, if one of them is. The packet
/// begins at `place`, and its header has `head` bytes and the type `kind`.
pub fn mismatch(
    place: u64,
    head: u64,
    live: &Live,
    kind: u32,
    response: &Response,
) -> Option<Refusal>
    requires { head < 256 }
    ensures value { result ≡ mismatch place head (expected_by live.now) kind (response_view response.now) }
    ensures side { IfSome result (λ refusal. refusal.side ≡ Host) }
{
    let expected = answer_kind(&live.kind);
    if kind != expected {
        return Some(mismatched(place, 0, expected, kind));
    }
    let Response::Data {
        endpoint: came,
        length_place,
        outcome,
    } = response
    else {
        return None;
    };
    let ep = endpoint(&live.kind);
    if *came != ep {
        return Some(mismatched(place, head, u32::from(ep), u32::from(*came)));
    }
    if outcome.done > live.wanted {
        let behind = head.saturating_add(*length_place);
        return Some(mismatched(place, behind, live.wanted, outcome.done));
    }
    None
}

/// The host is refused so many bytes behind the packet's first.
fn mismatched(place: u64, behind: u64, expected: u32, came: u32) -> Refusal
    ensures { result ≡ mismatched (place + behind) expected came }
{
    Refusal {
        side: Side::Host,
        place: place.saturating_add(behind),
        reason: Reason::Mismatch,
        kept: Some((u64::from(expected), u64::from(came))),
    }
}

// ---- what came of the transfer

/// Whether a request in flight asks for a value of one byte, which its status tells.
fn gets(kind: &LiveKind) -> bool
    ensures { result ≡ row_gets kind.now }
{
    match kind {
        LiveKind::Routed(route) => route_gets(route),
        LiveKind::Wire { .. } | LiveKind::Stream { .. } => false,
    }
}

/// Whether the answer of a route tells a value that was asked for.
fn route_gets(route: &Route) -> bool
    ensures { result ≡ route_gets route.now }
{
    matches!(route, Route::GetConfig | Route::GetAlt(_))
}

/// What came of a request's transfer by its answer, whose data are moved. A status of success gives a byte where the
/// request asks for its value and for at least one byte; memory is wanting for that byte alone.
pub fn told_outcome(alloc: Global, live: &Live, response: Response) -> Result<Outcome, Memory>
    ensures ok { IfOk result (λ o. (r : Request) (v : Verdict) → r.transfer.wanted ≡ live.now.wanted → gets_value v ≡ row_gets live.now.kind → o ≡ told_outcome r v (response_view response)) }
    ensures err { OnErr result ((row_gets live.now.kind ≡ true) × (0 < live.now.wanted) × (has_succeeded (response_view response) ≡ true)) }
{
    match response {
        Response::Data { outcome, .. } => Ok(outcome),
        Response::Status { status, value } => {
            let status = UsbStatus::from_byte(status);
            let tells = gets(&live.kind) && status.is_success();
            status_outcome(alloc, status, tells && live.wanted > 0, value)
        }
    }
}

/// What a status gives, with its value or without.
fn status_outcome(
    alloc: Global,
    status: UsbStatus,
    tells: bool,
    value: u8,
) -> Result<Outcome, Memory>
    ensures ok { IfOk result (λ o. o ≡ status_outcome status tells value) }
    ensures err { OnErr result (tells ≡ true) }
{
    let mut body = Bytes::new(alloc);
    if tells {
        body.push(value)?;
    }
    Ok(Outcome {
        status,
        done: u32::from(tells),
        body,
    })
}

/// Of whose stream a packet is, as it says itself.
#[derive(Clone, Copy)]
pub struct StreamIn {
    /// The byte of an IN endpoint, which may be no address.
    pub endpoint: u8,
    pub kind: StreamKind,
}

/// The IN endpoint of whose stream a packet is, if it is one's.
pub fn stream_in(packet: &RedirData) -> Option<StreamIn>
    ensures { result ≡ stream_in packet.now }
{
    match packet {
        RedirData::Interrupt { endpoint, .. } if is_in_endpoint(*endpoint) => Some(StreamIn {
            endpoint: *endpoint,
            kind: StreamKind::Interrupt,
        }),
        RedirData::Iso { endpoint, .. } if is_in_endpoint(*endpoint) => Some(StreamIn {
            endpoint: *endpoint,
            kind: StreamKind::Iso,
        }),
        _ => None,
    }
}

/// A packet of a stream. Its data are moved.
pub fn stream_packet(packet: RedirData) -> StreamPacket
    ensures { result ≡ packet_in packet }
{
    let (RedirData::Control { status, body, .. }
    | RedirData::Bulk { status, body, .. }
    | RedirData::Iso { status, body, .. }
    | RedirData::Interrupt { status, body, .. }) = packet;
    StreamPacket {
        status: UsbStatus::from_byte(status),
        body,
    }
}

/// How many bytes a header has, by whether its id has 64 bits.
pub fn head_size(caps: Caps) -> u64
    ensures { result ≡ head_size (wide_ids caps) }
{
    header_size(RedirState::later(caps)) as u64
}
