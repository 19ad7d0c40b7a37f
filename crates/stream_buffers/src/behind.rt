//! The packets that a stream holds behind the first so many, as they are lent.

ghost use Rattle.std.specs.Prelude.{◌≡◌, ◌<◌, ◌≤◌, ◌+◌, drop, length};
ghost use Rattle.std.specs.VecDeque.Iter.{deque_iter_rest};
ghost use Rattle.stream_buffers.specs.declared.up.TheConstants.{MAX_HELD};
ghost use Rattle.stream_buffers.specs.Interrupt.{packet_at};

use std::collections::VecDeque;
use std::collections::vec_deque::Iter;
use std::marker::Model;
use usb_base::StreamPacket;

/// The packets that a stream holds behind the first so many, which stay; contracts see their list.
#[derive(Drop)]
pub struct Behind<'a> {
    packets: &'a VecDeque<StreamPacket>,
    from: usize,
}

impl<'a> Model for Behind<'a> {
    ghost use Rattle.std.specs.Prelude.{◌≤◌, List, drop, length};
    ghost use Rattle.usb_base.specs.declared.transfer.StreamPacket.{StreamPacket};
    ghost use Rattle.stream_buffers.specs.declared.up.TheConstants.{MAX_HELD};

    ghost Value = { List StreamPacket };

    ghost view = { λ behind. drop behind.from behind.packets.now.items };

    ghost invariant = { λ behind. (behind.from ≤ length behind.packets.now.items) × (length behind.packets.now.items ≤ MAX_HELD) };
}

impl<'a> Behind<'a> {
    /// Those behind the first `from` of these.
    pub(crate) fn new(packets: &'a VecDeque<StreamPacket>, from: usize) -> Behind<'a>
        requires from { from ≤ length packets.now.items }
        requires few { length packets.now.items ≤ MAX_HELD }
        ensures { result ≡ drop from packets.now.items }
    {
        Behind { packets, from }
    }

    /// How many they are.
    pub(crate) fn len(&self) -> usize
        ensures len { result ≡ length self.now }
        ensures bound { result ≤ MAX_HELD }
    {
        self.packets.len() - self.from
    }

    /// They, one after another.
    pub(crate) fn iter(&self) -> Iter<'_, StreamPacket>
        ensures { deque_iter_rest result ≡ self.now }
    {
        self.iter_from(0)
    }

    /// Those from a place on, one after another.
    pub(crate) fn iter_from(&self, place: usize) -> Iter<'_, StreamPacket>
        requires { place ≤ length self.now }
        ensures rest { deque_iter_rest result ≡ drop place self.now }
        ensures bound { place + length (deque_iter_rest result) ≤ MAX_HELD }
    {
        self.packets.range(self.from + place..)
    }

    /// That at a place.
    pub(crate) fn at(&self, place: usize) -> &StreamPacket
        requires { place < length self.now }
        ensures { result.now ≡ packet_at self.now place }
    {
        &self.packets[self.from + place]
    }
}
