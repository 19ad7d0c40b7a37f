//! The packets to the host: the gateway's hello, those that ask for a transfer, starts and stops of streams, cancels
//! and acknowledgements.

ghost use Rattle.std.specs.Prelude.{◌≡◌, ◌++◌, ◌∷◌, [], true, length, zip, OnOk, OnErr, ◌<◌};
ghost use Rattle.std.specs.List.{flat_map};
ghost use Rattle.redir_wire.specs.Header.{IdFits};
ghost use Rattle.redir_wire.specs.Capability.{no_caps};
ghost use Rattle.redir_wire.specs.declared.packet.RedirControl.TheVariants.{Cancel};
ghost use Rattle.redir_data.specs.declared.packet.RedirPacket.TheVariants.{Plain, Carrying};
ghost use Rattle.gate_history.specs.write.Packets.{wire_packet, route_packets, start_packet, stop_packet};
ghost use Rattle.redir_data.specs.Sent.{sent_packet_bytes};
ghost use Rattle.gate_history.specs.write.Bytes.{gateway_hello};
ghost use Rattle.gate_history.specs.state.Flight.{wide_ids};
ghost use Rattle.gate_history.specs.client.Carried.{HasItsSetup, LengthFits};
ghost use Rattle.gate_parts.specs.state.Rows.{cancel_bytes, is_cancelled_row};
ghost use Rattle.gate_history.specs.step.Marks.{Disconnects};
ghost use Rattle.gate_history.specs.write.Output.{acknowledgements};

use control_route::Route;
use gate_history::{GATEWAY_NAME, PACKETS_PER_URB, Pipe, STREAM_URBS};
use redir_data::RedirData;
use redir_wire::{Caps, Hello, RedirControl, write_control};
use std::alloc::Global;
use stream_buffers::Up;
use unlink_race::{Live, LiveKind};
use usb_base::{Boxed, Bytes, EpAddr, EpKind, EpRow, Memory, Transfer};

/// The packet that carries a transfer to the host, into which the transfer's body is moved.
pub fn wire_packet(pipe: Pipe, transfer: Transfer) -> RedirData
    requires setup { HasItsSetup pipe transfer.setup transfer.wanted }
    requires length_fits { LengthFits true pipe transfer.wanted }
    ensures { Carrying result ≡ wire_packet pipe transfer }
{
    let Transfer {
        ep,
        setup,
        wanted,
        body,
    } = transfer;
    let endpoint = ep.byte();
    match pipe {
        Pipe::Control => {
            let setup = setup.unwrap();
            RedirData::Control {
                endpoint,
                request: setup.request,
                kind: setup.kind,
                status: 0,
                value: setup.value,
                index: setup.index,
                length: setup.length,
                body,
            }
        }
        Pipe::Bulk => RedirData::Bulk {
            endpoint,
            status: 0,
            length: wanted,
            stream: 0,
            body,
        },
        Pipe::InterruptOut => RedirData::Interrupt {
            endpoint,
            status: 0,
            length: wanted as u16,
            body,
        },
    }
}

/// Appends the first packet that asks for a route, if any does: only a reset has another, which asks for the
/// configuration. For want of memory `out` stands.
pub fn write_route(route: &Route, id: u64, caps: Caps, out: &mut Bytes) -> Result<(), Memory>
    requires { IdFits (wide_ids caps) id }
    ensures ok { OnOk result (out.new ≡ out.old ++ flat_map (sent_packet_bytes caps) (zip (id ∷ []) (route_packets route.now))) }
    ensures err { OnErr result (out.new ≡ out.old) }
{
    match route {
        Route::SetConfig(configuration) => {
            let packet = RedirControl::SetConfiguration {
                configuration: *configuration,
            };
            write_control(&packet, id, caps, out)
        }
        Route::GetConfig => write_control(&RedirControl::GetConfiguration, id, caps, out),
        Route::SetAlt { interface, alt } => {
            let packet = RedirControl::SetAlt {
                interface: *interface,
                alt: *alt,
            };
            write_control(&packet, id, caps, out)
        }
        Route::GetAlt(interface) => {
            let packet = RedirControl::GetAlt {
                interface: *interface,
            };
            write_control(&packet, id, caps, out)
        }
        Route::Reset => write_control(&RedirControl::Reset, id, caps, out),
        Route::Local | Route::Plain | Route::Bad => Ok(()),
    }
}

/// Appends the start of an endpoint's stream. For want of memory `out` stands.
pub fn write_start(
    ep: EpAddr,
    row: EpRow,
    id: u64,
    caps: Caps,
    out: &mut Bytes,
) -> Result<(), Memory>
    requires { IdFits (wide_ids caps) id }
    ensures ok { OnOk result (out.new ≡ out.old ++ sent_packet_bytes caps (id, start_packet ep row)) }
    ensures err { OnErr result (out.new ≡ out.old) }
{
    let endpoint = ep.byte();
    if row.kind == EpKind::Iso {
        let start = RedirControl::StartIso {
            endpoint,
            pkts_per_urb: PACKETS_PER_URB,
            no_urbs: STREAM_URBS,
        };
        write_control(&start, id, caps, out)
    } else {
        write_control(&RedirControl::StartInterrupt { endpoint }, id, caps, out)
    }
}

/// Appends the stop of a stream. For want of memory `out` stands.
pub fn write_stop(up: &Up, id: u64, caps: Caps, out: &mut Bytes) -> Result<(), Memory>
    requires { IdFits (wide_ids caps) id }
    ensures ok { OnOk result (out.new ≡ out.old ++ sent_packet_bytes caps (id, stop_packet up.now)) }
    ensures err { OnErr result (out.new ≡ out.old) }
{
    let endpoint = up.ep().byte();
    if up.row().kind == EpKind::Iso {
        write_control(&RedirControl::StopIso { endpoint }, id, caps, out)
    } else {
        write_control(&RedirControl::StopInterrupt { endpoint }, id, caps, out)
    }
}

/// Appends the cancel of the packet that has this id. For want of memory `out` stands.
pub fn write_cancel(id: u64, caps: Caps, out: &mut Bytes) -> Result<(), Memory>
    requires { IdFits (wide_ids caps) id }
    ensures ok { OnOk result (out.new ≡ out.old ++ sent_packet_bytes caps (id, Plain Cancel)) }
    ensures err { OnErr result (out.new ≡ out.old) }
{
    write_control(&RedirControl::Cancel, id, caps, out)
}

/// Appends the gateway's hello: its name, and the capabilities that it announces. For want of memory `out` stands.
pub fn write_hello(alloc: Global, out: &mut Bytes) -> Result<(), Memory>
    ensures ok { OnOk result (out.new ≡ out.old ++ sent_packet_bytes no_caps (0, gateway_hello)) }
    ensures err { OnErr result (out.new ≡ out.old) }
{
    let hello = Hello::of(alloc, &GATEWAY_NAME, Caps::ANNOUNCED)?;
    let hello = RedirControl::Hello(Boxed::new(alloc, hello)?);
    write_control(&hello, 0, Caps::empty(), out)
}

/// Appends the cancel of a transfer on the wire that wasn't asked back, and nothing for any other request.
pub fn write_cancel_of(live: &Live, caps: Caps, to_host: &mut Bytes) -> Result<(), Memory>
    requires { IdFits (wide_ids caps) live.now.id }
    ensures ok { OnOk result (to_host.new ≡ to_host.old ++ cancel_bytes caps live.now) }
    ensures err { OnErr result (to_host.new ≡ to_host.old) }
    ensures wants { OnErr result (is_cancelled_row live.now ≡ true) }
{
    match (live.kind, live.unlinker) {
        (LiveKind::Wire { .. }, None) => write_cancel(live.id, caps, to_host),
        _ => Ok(()),
    }
}

/// A disconnect is acknowledged where that is agreed.
pub fn acknowledge(id: u64, caps: Caps, to_host: &mut Bytes) -> Result<(), Memory>
    requires { IdFits (wide_ids caps) id }
    ensures ok { OnOk result (to_host.new ≡ to_host.old ++ flat_map (sent_packet_bytes caps) (acknowledgements caps (Disconnects id))) }
    ensures err { OnErr result (to_host.new ≡ to_host.old) }
    ensures wants { OnErr result (0 < length (acknowledgements caps (Disconnects id))) }
{
    if caps.contains(Caps::DISCONNECT_ACK) {
        write_control(&RedirControl::DisconnectAck, id, caps, to_host)?;
    }
    Ok(())
}
