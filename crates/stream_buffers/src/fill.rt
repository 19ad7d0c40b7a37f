//! Which of the held packets fill an interrupt request.

ghost use Rattle.std.specs.Prelude.{◌≡◌, ◌||◌, ◌<◌, nat_le, None, length, IfSome};
ghost use Rattle.std.specs.Option.{option_map};
ghost use Rattle.stream_buffers.specs.Interrupt.{ends, fills, last_of, bodies_to};
ghost use Rattle.stream_buffers.specs.Least.{least_below};
ghost use Rattle.stream_buffers.specs.inner.Seen.{IsSeen};

use crate::behind::Behind;
use usb_base::StreamPacket;

/// How many packets were looked at for a request that they don't fill, and the bytes that they have: the next look
/// begins behind them.
#[derive(Clone, Copy)]
pub(crate) struct Seen {
    pub count: usize,
    pub bytes: u32,
}

impl Seen {
    pub const NOTHING: Seen = Seen { count: 0, bytes: 0 };
}

/// The fewest packets that fill a request.
#[derive(Clone, Copy)]
pub(crate) struct Fewest {
    /// The place of the last of them.
    pub last: usize,
    /// How many bytes they have, which may be more than are wanted.
    pub bytes: u64,
}

impl<'a> Behind<'a> {
    /// The fewest of these packets that fill a request for so many bytes, if any do, and how far was looked.
    pub(crate) fn fewest_filling(
        &self,
        max_packet: u16,
        wanted: u32,
        seen: Seen,
    ) -> (Option<Fewest>, Seen)
        requires { IsSeen max_packet self.now seen }
        ensures last { option_map (λ f. f.last) result.0 ≡ last_of max_packet wanted self.now }
        ensures bytes { IfSome result.0 (λ f. f.bytes ≡ length (bodies_to f.last self.now)) }
        ensures there { IfSome result.0 (λ f. f.last < length self.now) }
        ensures seen { IsSeen max_packet self.now result.1 }
    {
        if seen.bytes < wanted {
            self.filling_behind(max_packet, wanted, seen)
        } else {
            self.filling_behind(max_packet, wanted, Seen::NOTHING)
        }
    }

    /// The same, where those that were seen don't fill it.
    fn filling_behind(&self, max_packet: u16, wanted: u32, mut seen: Seen) -> (Option<Fewest>, Seen)
        requires seen { IsSeen max_packet self.now seen }
        requires too_few { least_below (fills max_packet wanted self.now) seen.count ≡ None }
        ensures last { option_map (λ f. f.last) result.0 ≡ last_of max_packet wanted self.now }
        ensures bytes { IfSome result.0 (λ f. f.bytes ≡ length (bodies_to f.last self.now)) }
        ensures there { IfSome result.0 (λ f. f.last < length self.now) }
        ensures seen { IsSeen max_packet self.now result.1 }
    {
        for packet in self.iter_from(seen.count) {
            let bytes = u64::from(seen.bytes) + packet.body.as_slice().len() as u64;
            let last = seen.count;
            if fills(max_packet, packet, bytes, wanted) {
                return (Some(Fewest { last, bytes }), seen);
            }
            seen = Seen {
                count: last + 1,
                bytes: bytes as u32,
            };
        }
        (None, seen)
    }
}

/// Whether a packet fills a request, where so many bytes are there with its own.
fn fills(max_packet: u16, packet: &StreamPacket, bytes: u64, wanted: u32) -> bool
    ensures { result ≡ (ends max_packet packet.now || nat_le wanted bytes) }
{
    ends(max_packet, packet) || bytes >= u64::from(wanted)
}

/// Whether a packet ends a transfer, however many bytes are wanted.
fn ends(max_packet: u16, packet: &StreamPacket) -> bool
    ensures { result ≡ ends max_packet packet.now }
{
    !packet.status.is_success() || packet.body.len() < max_packet as usize || max_packet == 0
}
