//! How many bytes a packet awaits of which less than all is there.

ghost use Rattle.std.specs.Prelude.{◌≡◌};
ghost use Rattle.packet_stream.specs.Format.{Short, reading};
ghost use Rattle.packet_stream.specs.Awaited.{IsAwaited, StaysShort, awaited};
ghost use Rattle.usbip_urb.specs.ClientPackets.{client_packets};
ghost use Rattle.usbip_urb.specs.Requests.{requests};

use crate::code::{HEAD_SIZE, USBIP_CMD_SUBMIT, USBIP_DIR_OUT};
use crate::payload::{descs_place, descs_size};
use usb_base::{be_u16_at, be_u32_at};
use usbip_op::{OpWay, USBIP_VERSION, next_op};

/// How many bytes are awaited where less than a request is there: the least number at which a check has its bytes, or
/// the request with the fields that are there is whole. It takes no memory.
pub fn next_urb(bytes: &[u8]) -> usize
    requires { reading requests bytes.now ≡ Short }
    ensures least { IsAwaited requests bytes.now result }
    ensures quiet { StaysShort requests bytes.now result }
{
    next_request(bytes)
}

fn next_request(bytes: &[u8]) -> usize
    ensures { result ≡ awaited requests bytes.now }
{
    if bytes.len() < 2 {
        return 2;
    }
    if bytes.len() < 4 {
        return 4;
    }
    if bytes.len() < 12 {
        return 12;
    }
    if bytes.len() < 16 {
        return 16;
    }
    if bytes.len() < 20 {
        return 20;
    }
    if be_u32_at(bytes, 0) != USBIP_CMD_SUBMIT {
        return HEAD_SIZE;
    }
    if bytes.len() < 28 {
        return 28;
    }
    if bytes.len() < 36 {
        return 36;
    }
    descs_place(be_u32_at(bytes, 12) == USBIP_DIR_OUT, bytes) + descs_size(bytes)
}

/// How many bytes are awaited where less than a client's packet is there, as `next_op` and `next_urb` say.
pub fn next_client(bytes: &[u8]) -> usize
    requires { reading client_packets bytes.now ≡ Short }
    ensures least { IsAwaited client_packets bytes.now result }
    ensures quiet { StaysShort client_packets bytes.now result }
{
    if bytes.len() < 2 {
        return 2;
    }
    if be_u16_at(bytes, 0) == USBIP_VERSION {
        next_op(OpWay::Request, bytes)
    } else {
        next_urb(bytes)
    }
}
