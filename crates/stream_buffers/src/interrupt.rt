//! What an interrupt request is given of the packets that fill it.

ghost use Rattle.std.specs.Prelude.{◌≡◌, ◌+◌, ◌<◌, ◌≤◌, length, take, OnErr};
ghost use Rattle.usb_base.specs.Writes.{AppendsSome};
ghost use Rattle.stream_buffers.specs.Interrupt.{fitting_status, bodies_to, interrupt_cut_at};
ghost use Rattle.stream_buffers.specs.declared.up.TheConstants.{MAX_HELD};
ghost use Rattle.stream_buffers.specs.Fillings.{cut_by, filling_body};

use crate::behind::Behind;
use crate::fill::Fewest;
use usb_base::{Bytes, Memory, UsbStatus};

/// What an interrupt request is given of the packets behind a place; its bytes stay with them.
#[derive(Clone, Copy)]
pub struct Filling {
    /// How many packets fill it, at least one.
    pub count: usize,
    /// How many of their bytes fit.
    pub done: u32,
    /// What came of it: the status of the last packet, or babble where that is success and more bytes came than fit.
    pub status: UsbStatus,
}

impl<'a> Behind<'a> {
    /// What a request for so many bytes is given by the fewest of these packets that fill it.
    pub(crate) fn filling_by(&self, wanted: u32, fewest: Fewest) -> Filling
        requires few { length self.now ≤ MAX_HELD }
        requires there { fewest.last < length self.now }
        requires bytes { fewest.bytes ≡ length (bodies_to fewest.last self.now) }
        ensures cut { cut_by self.now result ≡ interrupt_cut_at wanted self.now fewest.last }
        ensures count { result.count ≡ fewest.last + 1 }
        ensures fits { result.done ≤ wanted }
    {
        Filling {
            count: fewest.last + 1,
            done: fewest.bytes.min(u64::from(wanted)) as u32,
            status: fitting_status(wanted, fewest.bytes, self.at(fewest.last).status),
        }
    }

    /// Appends what fits of those packets that fill an interrupt request. Each is copied once. For want of memory some
    /// of the bytes may be there, which the caller cuts off; it takes none where they have no byte.
    pub fn append_bodies(&self, filling: Filling, out: &mut Bytes) -> Result<(), Memory>
        requires { filling.count ≤ length self.now }
        ensures sent { AppendsSome result out.old out.new (filling_body self.now filling) }
        ensures wants { OnErr result (0 < length (filling_body self.now filling)) }
    {
        let mut room = filling.done as usize;
        for packet in self.iter().take(filling.count) {
            let fitting = fitting(packet.body.as_slice(), room);
            out.append(fitting)?;
            room -= fitting.len();
        }
        Ok(())
    }
}

/// What fits into so much room.
fn fitting(bytes: &[u8], room: usize) -> &[u8]
    ensures { result.now ≡ take room bytes.now }
{
    &bytes[..bytes.len().min(room)]
}

/// The status of a request that so many bytes came for, the last packet with this status.
fn fitting_status(wanted: u32, bytes: u64, status: UsbStatus) -> UsbStatus
    ensures { result ≡ fitting_status wanted bytes status }
{
    match status {
        UsbStatus::Success if bytes > u64::from(wanted) => UsbStatus::Babble,
        status => status,
    }
}
