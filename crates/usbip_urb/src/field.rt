//! Fields at their places.

ghost use Rattle.std.specs.Prelude.{◌≡◌, ◌≤◌, length};
ghost use Rattle.usbip_urb.specs.declared.code.TheConstants.{DESC_SIZE, HEAD_SIZE};
ghost use Rattle.usbip_urb.specs.Fields.{head_at, unlink_at, ret_unlink_at, desc_at};

use crate::packet::{Head, IsoDesc, RetUnlink, Unlink};
use usb_base::{array_at, be_u32_at};

pub(crate) fn head_at(bytes: &[u8]) -> Head
    requires { 20 ≤ length bytes.now }
    ensures { result ≡ head_at bytes.now }
{
    Head {
        seqnum: be_u32_at(bytes, 4),
        devid: be_u32_at(bytes, 8),
        direction: be_u32_at(bytes, 12),
        ep: be_u32_at(bytes, 16),
    }
}

pub(crate) fn unlink_at(bytes: &[u8]) -> Unlink
    requires { HEAD_SIZE ≤ length bytes.now }
    ensures { result ≡ unlink_at bytes.now }
{
    Unlink {
        head: head_at(bytes),
        target: be_u32_at(bytes, 20),
        pad: array_at(bytes, 24),
    }
}

pub(crate) fn ret_unlink_at(bytes: &[u8]) -> RetUnlink
    requires { HEAD_SIZE ≤ length bytes.now }
    ensures { result ≡ ret_unlink_at bytes.now }
{
    RetUnlink {
        head: head_at(bytes),
        status: be_u32_at(bytes, 20).cast_signed(),
        pad: array_at(bytes, 24),
    }
}

pub(crate) fn desc_at(bytes: &[u8]) -> IsoDesc
    requires { DESC_SIZE ≤ length bytes.now }
    ensures { result ≡ desc_at bytes.now }
{
    IsoDesc {
        offset: be_u32_at(bytes, 0),
        length: be_u32_at(bytes, 4),
        actual: be_u32_at(bytes, 8),
        status: be_u32_at(bytes, 12).cast_signed(),
    }
}
