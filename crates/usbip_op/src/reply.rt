//! Replies read.

ghost use Rattle.std.specs.Prelude.{◌≡◌, ◌≤◌, ◌<◌, length, map, OnErr, IfOk, Some};
ghost use Rattle.usb_base.specs.Number.{be_at};
ghost use Rattle.packet_stream.specs.Format.{reading};
ghost use Rattle.std.specs.Int.{w16};
ghost use Rattle.usbip_op.specs.Rows.{rows_at, rows_size, IsRowsSize};
ghost use Rattle.usbip_op.specs.Devices.{device_at, interface_at, listed_at, listed_form, listed_size};
ghost use Rattle.usbip_op.specs.Replies.{replies};
ghost use Rattle.packet_stream.specs.Reads.{told, Answers};
ghost use Rattle.usbip_op.specs.Packets.{takes_memory};
ghost use Rattle.usbip_op.specs.declared.code.TheConstants.{USBIP_VERSION as version, OP_REP_DEVLIST as list_code, OP_REP_IMPORT as import_code};

use crate::check::wrong_head;
use crate::code::{
    DEVICE_SIZE, HEADER_SIZE, INTERFACE_SIZE, LIST_HEADER_SIZE, MAX_DEVICES, OP_REP_DEVLIST,
    OP_REP_IMPORT, PATH_SIZE,
};
use crate::packet::{
    DeviceRow, IfaceRow, IfaceRows, Listed, ListedRows, OpError, OpPacket, OpRead,
};
use std::alloc::Global;
use usb_base::{List, Memory, Reason, array_at, be_u16_at, be_u32_at};

/// Reads the reply at the front of the bytes.
pub(crate) fn read_reply(alloc: Global, bytes: &[u8]) -> Result<OpRead, OpError>
    ensures { Answers takes_memory result (reading replies bytes.now) }
{
    if let Some((place, reason)) = wrong_head(bytes, OP_REP_DEVLIST, OP_REP_IMPORT) {
        return Err(OpError::Refused { place, reason });
    }
    if bytes.len() < HEADER_SIZE {
        return Ok(OpRead::Short);
    }
    if be_u16_at(bytes, 2) == OP_REP_IMPORT {
        return Ok(import_reply(bytes));
    }
    list_reply(alloc, bytes)
}

fn import_reply(bytes: &[u8]) -> OpRead
    requires version { be_at w16 0 bytes.now ≡ version }
    requires code { be_at w16 2 bytes.now ≡ import_code }
    requires head { HEADER_SIZE ≤ length bytes.now }
    ensures { told (Ok result) ≡ Some (reading replies bytes.now) }
{
    let status = be_u32_at(bytes, 4);
    if status == 0 {
        if bytes.len() < HEADER_SIZE + DEVICE_SIZE {
            return OpRead::Short;
        }
        let (_, row) = bytes.split_at(HEADER_SIZE);
        let device = Some(device_at(row));
        return OpRead::Whole(
            OpPacket::RepImport { status, device },
            HEADER_SIZE + DEVICE_SIZE,
        );
    }
    let device = None;
    OpRead::Whole(OpPacket::RepImport { status, device }, HEADER_SIZE)
}

fn list_reply(alloc: Global, bytes: &[u8]) -> Result<OpRead, OpError>
    requires version { be_at w16 0 bytes.now ≡ version }
    requires code { be_at w16 2 bytes.now ≡ list_code }
    requires head { HEADER_SIZE ≤ length bytes.now }
    ensures { Answers takes_memory result (reading replies bytes.now) }
{
    let status = be_u32_at(bytes, 4);
    if status != 0 {
        let devices = List::new(alloc);
        return Ok(OpRead::Whole(OpPacket::RepDevlist { status, devices }, HEADER_SIZE));
    }
    if bytes.len() < LIST_HEADER_SIZE {
        return Ok(OpRead::Short);
    }
    let count = be_u32_at(bytes, 8);
    if count > MAX_DEVICES {
        return Err(OpError::Refused {
            place: 8,
            reason: Reason::Count,
        });
    }
    let (_, rows) = bytes.split_at(LIST_HEADER_SIZE);
    let Some(size) = rows_size(count, rows) else {
        return Ok(OpRead::Short);
    };
    let devices = listed_rows(alloc, count, rows)?;
    Ok(OpRead::Whole(
        OpPacket::RepDevlist { status, devices },
        LIST_HEADER_SIZE + size,
    ))
}

/// How many bytes so many devices have with their interfaces, or none where they are not all there.
fn rows_size(count: u32, bytes: &[u8]) -> Option<usize>
    ensures { IsRowsSize listed_form count bytes.now result }
{
    let mut size = 0;
    for _ in 0..count {
        let (_, row) = bytes.split_at(size);
        if row.len() < DEVICE_SIZE {
            return None;
        }
        let row_size = DEVICE_SIZE + row[DEVICE_SIZE - 1] as usize * INTERFACE_SIZE;
        if row.len() < row_size {
            return None;
        }
        size += row_size;
    }
    Some(size)
}

/// The devices at the front, which are all there.
fn listed_rows(alloc: Global, count: u32, bytes: &[u8]) -> Result<ListedRows, Memory>
    requires { rows_size listed_form count bytes.now ≤ length bytes.now }
    ensures ok { IfOk result (λ rows. rows ≡ rows_at listed_form count bytes.now) }
    ensures err { OnErr result (0 < count) }
{
    let mut rows = List::new(alloc);
    let mut rest = bytes;
    for _ in 0..count {
        let row = listed_row(alloc, rest)?;
        let size = DEVICE_SIZE + row.device.interfaces as usize * INTERFACE_SIZE;
        rows.push(row)?;
        (_, rest) = rest.split_at(size);
    }
    Ok(rows)
}

fn listed_row(alloc: Global, bytes: &[u8]) -> Result<Listed, Memory>
    requires { listed_size bytes.now ≤ length bytes.now }
    ensures { IfOk result (λ row. row ≡ listed_at bytes.now) }
{
    let (_, behind) = bytes.split_at(DEVICE_SIZE);
    let device = device_at(bytes);
    let (interfaces, _) = behind.as_chunks::<INTERFACE_SIZE>();
    let interfaces = interface_rows(alloc, &interfaces[..device.interfaces as usize])?;
    Ok(Listed { device, interfaces })
}

fn interface_rows(alloc: Global, chunks: &[[u8; INTERFACE_SIZE]]) -> Result<IfaceRows, Memory>
    ensures { IfOk result (λ rows. rows ≡ map interface_at chunks.now) }
{
    let mut rows = List::new(alloc);
    for [class, subclass, protocol, pad] in chunks {
        rows.push(IfaceRow {
            class: *class,
            subclass: *subclass,
            protocol: *protocol,
            pad: *pad,
        })?;
    }
    Ok(rows)
}

fn device_at(bytes: &[u8]) -> DeviceRow
    requires { DEVICE_SIZE ≤ length bytes.now }
    ensures { result ≡ device_at bytes.now }
{
    DeviceRow {
        path: array_at(bytes, 0),
        busid: array_at(bytes, PATH_SIZE),
        busnum: be_u32_at(bytes, 288),
        devnum: be_u32_at(bytes, 292),
        speed: be_u32_at(bytes, 296),
        vendor: be_u16_at(bytes, 300),
        product: be_u16_at(bytes, 302),
        version: be_u16_at(bytes, 304),
        class: bytes[306],
        subclass: bytes[307],
        protocol: bytes[308],
        configuration: bytes[309],
        configurations: bytes[310],
        interfaces: bytes[DEVICE_SIZE - 1],
    }
}
