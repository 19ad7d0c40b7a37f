//! The wrong places of the first four bytes, each found as soon as the bytes of its field are there.

ghost use Rattle.std.specs.Prelude.{◌≡◌, ◌∷◌, []};
ghost use Rattle.packet_stream.specs.Format.{wrong_at};
ghost use Rattle.usbip_op.specs.Requests.{version_check, code_check};

use crate::code::USBIP_VERSION;
use usb_base::{Reason, be_u16_at};

/// The first wrong place of a packet whose code is one of these two, as far as its bytes are there.
pub(crate) fn wrong_head(bytes: &[u8], list: u16, import: u16) -> Option<(u64, Reason)>
    ensures { result ≡ wrong_at (version_check ∷ code_check list import ∷ []) bytes.now }
{
    if bytes.len() < 2 {
        return None;
    }
    if be_u16_at(bytes, 0) != USBIP_VERSION {
        return Some((0, Reason::Version));
    }
    if bytes.len() < 4 {
        return None;
    }
    let code = be_u16_at(bytes, 2);
    if code != list && code != import {
        return Some((2, Reason::OpCode));
    }
    None
}
