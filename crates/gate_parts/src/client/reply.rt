//! The replies to list and import requests.

ghost use Rattle.std.specs.Prelude.{◌≡◌, ◌≤◌, true, length, take, is_some, IfOk, OnErr};
ghost use Rattle.redir_wire.specs.declared.packet.TheConstants.{MAX_INTERFACES};
ghost use Rattle.usbip_op.specs.Ranges.{IsWritable};
ghost use Rattle.gate_history.specs.client.Replies.{rows as rows_of, interface_rows, device_row, list_reply, import_reply, failed_import, is_exported};

use gate_history::Facts;
use redir_wire::{Connect, InterfaceInfo, MAX_INTERFACES};
use std::alloc::Global;
use usb_base::{Memory, Speed, padded};
use usbip_op::{
    BUS_ID, BUS_ID_SIZE, BUS_NUMBER, DEVICE_NUMBER, DeviceRow, IfaceRow, IfaceRows, Listed,
    ListedRows, OpPacket, ST_NA, ST_OK,
};

/// The list of the one device, or of none before its device_connect.
pub fn list_reply(alloc: Global, facts: &Facts) -> Result<OpPacket, Memory>
    ensures value { IfOk result (λ reply. reply ≡ list_reply facts.now) }
    ensures writable { IfOk result IsWritable }
    ensures wants { OnErr result (is_some facts.now.connect ≡ true) }
{
    let mut devices = ListedRows::new(alloc);
    if let Some(connect) = &facts.connect {
        let interfaces = interface_rows(alloc, &facts.interfaces)?;
        let device = device_row(facts, connect, interfaces.len() as u8);
        devices.push(Listed { device, interfaces })?;
    }
    Ok(OpPacket::RepDevlist {
        status: ST_OK,
        devices,
    })
}

/// The device, to a client that imports it.
pub fn import_reply(facts: &Facts, connect: &Connect) -> OpPacket
    ensures value { result ≡ import_reply facts.now connect.now }
    ensures writable { IsWritable result }
{
    let device = device_row(facts, connect, interface_count(&facts.interfaces));
    OpPacket::RepImport {
        status: ST_OK,
        device: Some(device),
    }
}

/// The reply to an import that fails. To clients any status other than 0 says so.
pub fn failed_import() -> OpPacket
    ensures value { result ≡ failed_import }
    ensures writable { IsWritable result }
{
    OpPacket::RepImport {
        status: ST_NA,
        device: None,
    }
}

/// Whether the one device has this bus id, a text that ends at its first zero.
pub fn is_exported(busid: &[u8; BUS_ID_SIZE]) -> bool
    ensures { result ≡ is_exported busid.now }
{
    busid.starts_with(&BUS_ID) && busid[BUS_ID.len()] == 0
}

/// The rows of an interface_info, as many as its count.
fn counted_rows(alloc: Global, info: &InterfaceInfo) -> Result<IfaceRows, Memory>
    ensures rows { IfOk result (λ rows. rows ≡ take info.now.count (rows_of info.now.class info.now.subclass info.now.protocol)) }
    ensures few { IfOk result (λ rows. length rows ≤ MAX_INTERFACES) }
{
    let mut rows = IfaceRows::new(alloc);
    let count = info.count.min(MAX_INTERFACES) as usize;
    for k in 0..count {
        rows.push(IfaceRow {
            class: info.class[k],
            subclass: info.subclass[k],
            protocol: info.protocol[k],
            pad: 0,
        })?;
    }
    Ok(rows)
}

/// The interfaces that were told, none before an interface_info.
fn interface_rows(alloc: Global, info: &Option<InterfaceInfo>) -> Result<IfaceRows, Memory>
    ensures rows { IfOk result (λ rows. rows ≡ interface_rows info.now) }
    ensures few { IfOk result (λ rows. length rows ≤ MAX_INTERFACES) }
{
    match info {
        Some(info) => counted_rows(alloc, info),
        None => Ok(IfaceRows::new(alloc)),
    }
}

/// How many there are.
fn interface_count(info: &Option<InterfaceInfo>) -> u8
    ensures { result ≡ length (interface_rows info.now) }
{
    match info {
        Some(info) => row_count(info),
        None => 0,
    }
}

fn row_count(info: &InterfaceInfo) -> u8
    ensures { result ≡ length (take info.now.count (rows_of info.now.class info.now.subclass info.now.protocol)) }
{
    info.count.min(MAX_INTERFACES) as u8
}

/// The device, as it was told: the only one, under the one bus id.
fn device_row(facts: &Facts, connect: &Connect, interfaces: u8) -> DeviceRow
    ensures { result ≡ record (device_row facts.now connect.now) { interfaces = interfaces } }
{
    DeviceRow {
        path: padded(b"/usbredir/1-1"),
        busid: padded(&BUS_ID),
        busnum: BUS_NUMBER,
        devnum: DEVICE_NUMBER,
        speed: Speed::from_redir(connect.speed).usbip(),
        vendor: connect.vendor,
        product: connect.product,
        version: connect.version,
        class: connect.class,
        subclass: connect.subclass,
        protocol: connect.protocol,
        configuration: facts.configuration,
        configurations: 1,
        interfaces,
    }
}
