//! How many bytes a packet awaits of which less than all is there.

ghost use Rattle.std.specs.Prelude.{◌≡◌, ◌+◌, ◌*◌, ◌≤◌, length, drop};
ghost use Rattle.packet_stream.specs.Format.{Short, reading};
ghost use Rattle.packet_stream.specs.Awaited.{IsAwaited, StaysShort, awaited};
ghost use Rattle.usbip_op.specs.Devices.{listed_form, listed_size};
ghost use Rattle.usbip_op.specs.Packets.{packets_of};
ghost use Rattle.usbip_op.specs.Replies.{replies};
ghost use Rattle.usbip_op.specs.Requests.{requests};
ghost use Rattle.usbip_op.specs.Rows.{rows_size};

use crate::code::{
    BUS_ID_SIZE, DEVICE_SIZE, HEADER_SIZE, INTERFACE_SIZE, LIST_HEADER_SIZE, OP_REP_DEVLIST,
    OP_REQ_DEVLIST,
};
use crate::packet::OpWay;
use usb_base::{be_u16_at, be_u32_at};

/// How many bytes are awaited where less than a packet that goes this way is there: the least number at which a check
/// has its bytes, or the packet with the fields that are there is whole. It takes no memory.
pub fn next_op(way: OpWay, bytes: &[u8]) -> usize
    requires { reading (packets_of way) bytes.now ≡ Short }
    ensures least { IsAwaited (packets_of way) bytes.now result }
    ensures quiet { StaysShort (packets_of way) bytes.now result }
{
    if bytes.len() < 2 {
        return 2;
    }
    if bytes.len() < 4 {
        return 4;
    }
    match way {
        OpWay::Request => next_request(bytes),
        OpWay::Reply => next_reply(bytes),
    }
}

fn next_request(bytes: &[u8]) -> usize
    requires { 4 ≤ length bytes.now }
    ensures { result ≡ awaited requests bytes.now }
{
    if be_u16_at(bytes, 2) == OP_REQ_DEVLIST {
        HEADER_SIZE
    } else {
        HEADER_SIZE + BUS_ID_SIZE
    }
}

fn next_reply(bytes: &[u8]) -> usize
    requires { 4 ≤ length bytes.now }
    ensures { result ≡ awaited replies bytes.now }
{
    if bytes.len() < HEADER_SIZE || be_u32_at(bytes, 4) != 0 {
        return HEADER_SIZE;
    }
    if be_u16_at(bytes, 2) != OP_REP_DEVLIST {
        return HEADER_SIZE + DEVICE_SIZE;
    }
    if bytes.len() < LIST_HEADER_SIZE {
        return LIST_HEADER_SIZE;
    }
    LIST_HEADER_SIZE + least_rows(be_u32_at(bytes, 8), &bytes[LIST_HEADER_SIZE..])
}

/// How many bytes so many devices have at least with their interfaces, as far as those are told.
fn least_rows(count: u32, bytes: &[u8]) -> usize
    ensures value { result ≡ rows_size listed_form count bytes.now }
    ensures small { result ≤ count * (DEVICE_SIZE + 255 * INTERFACE_SIZE) }
{
    let mut size = 0;
    for _ in 0..count {
        size += least_row(behind(bytes, size));
    }
    size
}

/// How many bytes a device has with its interfaces, or without them where their number isn't there.
fn least_row(bytes: &[u8]) -> usize
    ensures value { result ≡ listed_size bytes.now }
    ensures small { result ≤ DEVICE_SIZE + 255 * INTERFACE_SIZE }
{
    match bytes.get(DEVICE_SIZE - 1) {
        Some(interfaces) => DEVICE_SIZE + *interfaces as usize * INTERFACE_SIZE,
        None => DEVICE_SIZE,
    }
}

/// What stands from a place on: nothing where the bytes end before it.
fn behind(bytes: &[u8], place: usize) -> &[u8]
    ensures { result.now ≡ drop place bytes.now }
{
    bytes.get(place..).unwrap_or(&[])
}
