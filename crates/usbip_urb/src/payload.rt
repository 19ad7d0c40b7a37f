//! What stands behind the first 48 bytes of a submit and of its answer: a body or none, and descriptors, 16 bytes each.

ghost use Rattle.std.specs.Prelude.{◌≡◌, ◌≤◌, ◌<◌, ◌/◌, ◌^◌, length, IfOk, OnErr};
ghost use Rattle.std.specs.Int.{w32};
ghost use Rattle.usb_base.specs.Number.{be_at};
ghost use Rattle.usbip_urb.specs.declared.code.TheConstants.{DESC_SIZE};
ghost use Rattle.usbip_urb.specs.Sizes.{count_of, descs_place, descs_size};
ghost use Rattle.usbip_urb.specs.Fields.{descs_at};

use crate::code::{DESC_SIZE, HEAD_SIZE, NO_PACKETS};
use crate::field::desc_at;
use crate::packet::Descs;
use std::alloc::Global;
use usb_base::{List, Memory, be_u32_at};

/// Where the descriptors stand: behind the head, and behind a body where `has_body` says that there is one.
pub(crate) fn descs_place(has_body: bool, bytes: &[u8]) -> usize
    requires { 28 ≤ length bytes.now }
    ensures place { result ≡ descs_place has_body bytes.now }
    ensures in_range { result < 2 ^ 33 }
{
    if has_body {
        HEAD_SIZE + be_u32_at(bytes, 24) as usize
    } else {
        HEAD_SIZE
    }
}

/// How many bytes they have.
pub(crate) fn descs_size(bytes: &[u8]) -> usize
    requires { 36 ≤ length bytes.now }
    ensures size { result ≡ descs_size bytes.now }
    ensures in_range { result < 2 ^ 36 }
{
    desc_count(bytes) * DESC_SIZE
}

/// How many descriptors a packet has.
fn desc_count(bytes: &[u8]) -> usize
    requires { 36 ≤ length bytes.now }
    ensures count { result ≡ count_of (be_at w32 32 bytes.now) }
    ensures in_range { result < 2 ^ 32 }
{
    let packets = be_u32_at(bytes, 32);
    if packets == NO_PACKETS {
        0
    } else {
        packets as usize
    }
}

/// The descriptors that stand one behind another, 16 bytes each. They take no memory where there are none.
pub(crate) fn read_descs(alloc: Global, bytes: &[u8]) -> Result<Descs, Memory>
    ensures ok { IfOk result (λ descs. descs ≡ descs_at (length bytes.now / DESC_SIZE) bytes.now) }
    ensures err { OnErr result (0 < length bytes.now / DESC_SIZE) }
{
    let mut descs = List::new(alloc);
    descs.reserve(bytes.len() / DESC_SIZE)?;
    for desc in bytes.chunks_exact(DESC_SIZE) {
        descs.push(desc_at(desc))?;
    }
    Ok(descs)
}
