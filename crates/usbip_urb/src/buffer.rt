//! Isochronous packets over their transfer buffer.

ghost use Rattle.std.specs.Prelude.{◌≡◌, ◌+◌, ◌≤◌, ◌<◌, length, IsTrue};
ghost use Rattle.usb_base.specs.Number.{part as part_of};
ghost use Rattle.usb_base.specs.declared.limits.TheConstants.{MAX_PACKETS};
ghost use Rattle.usbip_urb.specs.Buffers.{laid, stretch, total};

use crate::code::MAX_PACKET_LENGTH;
use crate::packet::Descs;

/// Whether the descriptors lie one behind another in a buffer of `length` bytes: each is at most 65,535 bytes long,
/// each begins at or after the end of the one before, and the last ends within the buffer.
pub fn laid(descs: &Descs, length: u32) -> bool
    ensures { result ≡ laid descs.now length }
{
    let mut end = 0;
    for desc in descs.as_slice() {
        let offset = u64::from(desc.offset);
        if desc.length > MAX_PACKET_LENGTH || offset < end {
            return false;
        }
        end = offset + u64::from(desc.length);
    }
    end <= u64::from(length)
}

/// Descriptor `k`'s stretch of the body, which is lent.
pub fn part<'a>(descs: &Descs, body: &'a [u8], k: usize) -> &'a [u8]
    requires laid { IsTrue (laid descs.now (length body.now)) }
    requires in_range { k < length descs.now }
    ensures { result.now ≡ stretch descs.now body.now k }
{
    let desc = &descs.as_slice()[k];
    piece_at(body, desc.offset as usize, desc.length as usize)
}

fn piece_at(bytes: &[u8], start: usize, size: usize) -> &[u8]
    requires { start + size ≤ length bytes.now }
    ensures { result.now ≡ part_of start size bytes.now }
{
    &bytes[start..start + size]
}

/// How many bytes were moved in all: the sum of the actual lengths.
pub fn total(descs: &Descs) -> u64
    requires { length descs.now ≤ MAX_PACKETS }
    ensures { result ≡ total descs.now }
{
    descs
        .as_slice()
        .iter()
        .map(|desc| u64::from(desc.actual))
        .sum()
}
