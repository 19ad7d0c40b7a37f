//! The wrong places of packets, each found as soon as the bytes of its field are there.

ghost use Rattle.std.specs.Prelude.{◌≡◌};
ghost use Rattle.packet_stream.specs.Format.{wrong_at};
ghost use Rattle.usbip_urb.specs.Checks.{request_checks, answer_checks, size_checks};

use crate::code::{
    EXPORTED_DEVID, MAX_ENDPOINT, NO_PACKETS, USBIP_CMD_SUBMIT, USBIP_CMD_UNLINK, USBIP_DIR_IN,
    USBIP_RET_SUBMIT, USBIP_RET_UNLINK,
};
use usb_base::{MAX_PACKETS, MAX_TRANSFER, Reason, be_u16_at, be_u32_at};

/// The first wrong place of a request, as far as its bytes are there.
pub(crate) fn wrong_request(bytes: &[u8]) -> Option<(u64, Reason)>
    ensures { result ≡ wrong_at request_checks bytes.now }
{
    if bytes.len() < 2 {
        return None;
    }
    if be_u16_at(bytes, 0) != 0 {
        return Some((0, Reason::Version));
    }
    if bytes.len() < 4 {
        return None;
    }
    let command = be_u32_at(bytes, 0);
    if command != USBIP_CMD_SUBMIT && command != USBIP_CMD_UNLINK {
        return Some((0, Reason::Command));
    }
    if bytes.len() < 12 {
        return None;
    }
    if be_u32_at(bytes, 8) != EXPORTED_DEVID {
        return Some((8, Reason::Device));
    }
    if bytes.len() < 16 {
        return None;
    }
    if be_u32_at(bytes, 12) > USBIP_DIR_IN {
        return Some((12, Reason::Direction));
    }
    if bytes.len() < 20 {
        return None;
    }
    if be_u32_at(bytes, 16) > MAX_ENDPOINT {
        return Some((16, Reason::Endpoint));
    }
    if command == USBIP_CMD_UNLINK {
        return None;
    }
    wrong_size(bytes)
}

/// The first wrong place of an answer, as far as its bytes are there.
pub(crate) fn wrong_answer(bytes: &[u8]) -> Option<(u64, Reason)>
    ensures { result ≡ wrong_at answer_checks bytes.now }
{
    if bytes.len() < 4 {
        return None;
    }
    let command = be_u32_at(bytes, 0);
    if command != USBIP_RET_SUBMIT && command != USBIP_RET_UNLINK {
        return Some((0, Reason::Command));
    }
    if command == USBIP_RET_UNLINK {
        return None;
    }
    wrong_size(bytes)
}

/// The first of the two fields of a submit, or of its answer, that is too large.
fn wrong_size(bytes: &[u8]) -> Option<(u64, Reason)>
    ensures { result ≡ wrong_at size_checks bytes.now }
{
    if bytes.len() < 28 {
        return None;
    }
    if be_u32_at(bytes, 24) > MAX_TRANSFER {
        return Some((24, Reason::TooLong));
    }
    if bytes.len() < 36 {
        return None;
    }
    let packets = be_u32_at(bytes, 32);
    if packets > MAX_PACKETS && packets != NO_PACKETS {
        return Some((32, Reason::Packets));
    }
    None
}
