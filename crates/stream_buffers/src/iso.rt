//! What an isochronous request is given: of each of its packets what fits into its descriptor.

ghost use Rattle.std.specs.Prelude.{◌≡◌, ◌≤◌, ◌<◌, ◌^◌, ℕ, None, length, IfSome, IsTrue, MatchOption, OnErr};
ghost use Rattle.usb_base.specs.Writes.{AppendsSome};
ghost use Rattle.usb_base.specs.declared.limits.TheConstants.{MAX_PACKETS};
ghost use Rattle.usbip_urb.specs.Buffers.{laid};
ghost use Rattle.usbip_urb.specs.Spelling.{descs_bytes};
ghost use Rattle.stream_buffers.specs.Iso.{piece, piece_status, pieces, filled, all_filled, iso_cut};
ghost use Rattle.stream_buffers.specs.Fillings.{FillsIso};

use crate::behind::Behind;
use usb_base::{Bytes, Memory, StreamPacket, UsbStatus};
use usbip_urb::{Descs, IsoDesc, push_desc};

/// What an isochronous request is given; its bytes stay with the packets.
#[derive(Clone, Copy, PartialEq, Eq)]
pub struct IsoFilling {
    /// How many bytes of its packets fit.
    pub done: u64,
    /// How many of its descriptors have a status other than 0.
    pub errors: u32,
}

impl<'a> Behind<'a> {
    /// What an isochronous request is given of these packets: one for each descriptor, as far as it fits, joined
    /// without gaps. A packet that is longer than its descriptor has the status -75. None where there are fewer packets
    /// than descriptors.
    pub fn iso_filling(&self, descs: &Descs) -> Option<IsoFilling>
        ensures cut { MatchOption result (iso_cut descs.now self.now ≡ None) (FillsIso descs.now self.now) }
        ensures fits { (size : ℕ) → IsTrue (laid descs.now size) → IfSome result (λ filling. filling.done ≤ size) }
    {
        if self.len() < descs.len() {
            return None;
        }
        Some(self.filling_each(descs))
    }

    /// The same, where there are as many packets.
    fn filling_each(&self, descs: &Descs) -> IsoFilling
        requires few { length descs.now ≤ MAX_PACKETS }
        requires enough { length descs.now ≤ length self.now }
        ensures { FillsIso descs.now self.now result }
    {
        let mut done = 0;
        let mut errors = 0;
        for (desc, packet) in descs.as_slice().iter().zip(self.iter()) {
            let filled = filled_by(desc, packet);
            done += u64::from(filled.actual);
            errors += u32::from(filled.is_failed());
        }
        IsoFilling { done, errors }
    }

    /// Appends what fits of these packets, one for each descriptor, without gaps. Each is copied once. For want of
    /// memory some of the bytes may be there, which the caller cuts off; it takes none where they have no byte.
    pub fn append_pieces(&self, descs: &Descs, out: &mut Bytes) -> Result<(), Memory>
        requires { length descs.now ≤ length self.now }
        ensures sent { AppendsSome result out.old out.new (pieces descs.now self.now) }
        ensures wants { OnErr result (0 < length (pieces descs.now self.now)) }
    {
        for (desc, packet) in descs.as_slice().iter().zip(self.iter()) {
            out.append(piece(desc, packet))?;
        }
        Ok(())
    }

    /// Appends the descriptors with what came of each of these packets. For want of memory some of the bytes may be
    /// there, which the caller cuts off; it takes none where there are no descriptors.
    pub fn append_filled(&self, descs: &Descs, out: &mut Bytes) -> Result<(), Memory>
        requires { length descs.now ≤ length self.now }
        ensures sent { AppendsSome result out.old out.new (descs_bytes (all_filled descs.now self.now)) }
        ensures wants { OnErr result (0 < length descs.now) }
    {
        for (desc, packet) in descs.as_slice().iter().zip(self.iter()) {
            push_desc(&filled_by(desc, packet), out)?;
        }
        Ok(())
    }
}

/// What fits of a packet.
fn piece<'a>(desc: &IsoDesc, packet: &'a StreamPacket) -> &'a [u8]
    ensures value { result.now ≡ piece desc.now packet.now }
    ensures short { length result.now < 2 ^ 32 }
{
    let bytes = packet.body.as_slice();
    &bytes[..bytes.len().min(desc.length as usize)]
}

/// The descriptor with what came of it.
fn filled_by(desc: &IsoDesc, packet: &StreamPacket) -> IsoDesc
    ensures { result ≡ filled desc.now packet.now }
{
    IsoDesc {
        actual: piece(desc, packet).len() as u32,
        status: piece_status(desc, packet).errno(),
        ..*desc
    }
}

/// A packet that is too long is babble.
fn piece_status(desc: &IsoDesc, packet: &StreamPacket) -> UsbStatus
    ensures { result ≡ piece_status desc.now packet.now }
{
    if packet.body.len() > desc.length as usize {
        UsbStatus::Babble
    } else {
        packet.status
    }
}
