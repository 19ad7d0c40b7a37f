//! What is told of the device.

ghost use Rattle.std.specs.Prelude.{◌≡◌, ◌++◌, ◌≤◌, OnOk, OnErr};
ghost use Rattle.std.specs.Int.{w16};
ghost use Rattle.usb_base.specs.Writes.{Begins};
ghost use Rattle.redir_wire.specs.Ranges.{Ranges};
ghost use Rattle.redir_wire.specs.Words.{AreNumbers};
ghost use Rattle.redir_wire.specs.declared.packet.TheConstants.{MAX_INTERFACES};
ghost use Rattle.redir_host.specs.device.Facts.{connect_of, ep_info_of};
ghost use Rattle.redir_host.specs.write.Told.{facts_bytes, connect_bytes};

use crate::write::packet::write;
use redir_data::RedirPacket;
use redir_wire::{Caps, Connect, EpInfo, InterfaceInfo, RedirControl};
use std::alloc::Global;
use usb_base::{Boxed, Bytes, ENDPOINTS, EpTable, Memory};

/// Appends the endpoints and the interfaces. For want of memory what was there still stands at the front.
pub fn write_facts(
    alloc: Global,
    table: &EpTable,
    interfaces: InterfaceInfo,
    caps: Caps,
    out: &mut Bytes,
) -> Result<(), Memory>
    requires { interfaces.count ≤ MAX_INTERFACES }
    ensures ok { OnOk result (out.new ≡ out.old ++ facts_bytes caps table.now interfaces) }
    ensures ranges { OnOk result (Ranges (RedirControl.EpInfo (ep_info_of caps table.now)) × Ranges (RedirControl.InterfaceInfo interfaces)) }
    ensures err { OnErr result (Begins out.old out.new) }
{
    let endpoints = Boxed::new(alloc, ep_info(table, caps))?;
    let interfaces = Boxed::new(alloc, interfaces)?;
    let endpoints = RedirPacket::Plain(RedirControl::EpInfo(endpoints));
    write(&endpoints, 0, caps, out)?;
    let interfaces = RedirPacket::Plain(RedirControl::InterfaceInfo(interfaces));
    write(&interfaces, 0, caps, out)?;
    Ok(())
}

/// Appends what the device tells as it is plugged in. For want of memory `out` stands.
pub fn write_connect(identity: Connect, caps: Caps, out: &mut Bytes) -> Result<(), Memory>
    ensures ok { OnOk result (out.new ≡ out.old ++ connect_bytes caps identity) }
    ensures ranges { OnOk result (Ranges (RedirControl.Connect (connect_of caps identity))) }
    ensures err { OnErr result (out.new ≡ out.old) }
{
    let connect = RedirPacket::Plain(RedirControl::Connect(connect_of(identity, caps)));
    write(&connect, 0, caps, out)
}

/// What the guest is told of the endpoints.
fn ep_info(table: &EpTable, caps: Caps) -> EpInfo
    ensures info { result ≡ ep_info_of caps table.now }
    ensures ranges { Ranges (RedirControl.EpInfo result) }
{
    let rows = table.rows;
    EpInfo {
        kinds: rows.map(|row| row.kind.to_byte()),
        interval: rows.map(|row| row.interval),
        interface: rows.map(|row| row.interface),
        max_packet: max_packets(table, caps),
    }
}

/// The largest packets, 0 where they aren't sent.
fn max_packets(table: &EpTable, caps: Caps) -> [u16; ENDPOINTS]
    ensures sizes { result ≡ (ep_info_of caps table.now).max_packet }
    ensures fit { AreNumbers w16 result }
{
    if caps.contains(Caps::MAX_PACKET_SIZE) {
        table.rows.map(|row| row.max_packet)
    } else {
        [0; ENDPOINTS]
    }
}

/// What is told as the device is plugged in.
fn connect_of(identity: Connect, caps: Caps) -> Connect
    ensures { result ≡ connect_of caps identity }
{
    let version = if caps.contains(Caps::CONNECT_VERSION) {
        identity.version
    } else {
        0
    };
    Connect {
        version,
        ..identity
    }
}
