//! A stream that is up, and the packets that it holds.

ghost use Rattle.std.specs.Prelude.{◌≡◌, ◌+◌, ◌≤◌, ◌-◌, [], length, take, drop, not, false, IfSome, IfOk, OnOk, OnErr};
ghost use Rattle.std.specs.Option.{option_map};
ghost use Rattle.stream_buffers.specs.Held.{is_full, receive};
ghost use Rattle.stream_buffers.specs.Interrupt.{interrupt_cut};
ghost use Rattle.stream_buffers.specs.Fillings.{cut_by};
ghost use Rattle.stream_buffers.specs.inner.Seen.{IsSeen};

use crate::behind::Behind;
use crate::fill::Seen;
use crate::interrupt::Filling;
use std::alloc::Global;
use std::collections::VecDeque;
use std::marker::Model;
use usb_base::{EpAddr, EpRow, Memory, StreamPacket};

/// How many packets are held at most.
pub const MAX_HELD: usize = 1024;

/// A stream that is up, with the row that its endpoint had when it went up, and the packets that came and that no
/// request took, at most 1,024. For a request that waits each packet is looked at once, and what it is given is copied
/// once, from where it lies.
#[derive(Drop)]
pub struct Up {
    ep: EpAddr,
    row: EpRow,
    packets: VecDeque<StreamPacket>,
    seen: Seen,
}

impl Model for Up {
    ghost use Rattle.std.specs.Prelude.{◌≤◌, length};
    ghost use Rattle.stream_buffers.specs.declared.up.TheConstants.{MAX_HELD};
    ghost use Rattle.stream_buffers.specs.Held.{Up as Held};
    ghost use Rattle.stream_buffers.specs.inner.Seen.{IsSeen};

    ghost Value = { Held };

    ghost view = { λ up. record { ep = up.ep; row = up.row; held = up.packets.items } };

    ghost invariant = { λ up. IsSeen up.row.max_packet up.packets.items up.seen × (length up.packets.items ≤ MAX_HELD) };
}

impl Up {
    /// It has just gone up, and takes no memory.
    pub fn new(alloc: Global, ep: EpAddr, row: EpRow) -> Up
        ensures { result ≡ record { ep = ep; row = row; held = [] } }
    {
        Up {
            ep,
            row,
            packets: VecDeque::new(alloc),
            seen: Seen::NOTHING,
        }
    }

    /// Its endpoint.
    pub fn ep(&self) -> EpAddr
        ensures { result ≡ self.now.ep }
    {
        self.ep
    }

    /// The row that its endpoint had when it went up.
    pub fn row(&self) -> EpRow
        ensures { result ≡ self.now.row }
    {
        self.row
    }

    /// How many packets it holds.
    pub fn len(&self) -> usize
        ensures len { result ≡ length self.now.held }
        ensures bound { result ≤ MAX_HELD }
    {
        self.packets.len()
    }

    /// Holds a packet, and says whether it does: where 1,024 are held it is lost. It is lost for want of memory, too.
    pub fn receive(&mut self, packet: StreamPacket) -> Result<bool, Memory>
        ensures told { IfOk result (λ held. held ≡ not (is_full self.old.held)) }
        ensures ok { OnOk result (self.new ≡ record self.old { held = receive packet self.old.held }) }
        ensures room { OnErr result (is_full self.old.held ≡ false) }
        ensures err { OnErr result (self.new ≡ self.old) }
    {
        if self.packets.len() >= MAX_HELD {
            return Ok(false);
        }
        self.packets.push_back(packet)?;
        Ok(true)
    }

    /// The packets that it holds behind the first `from`.
    pub fn behind(&self, from: usize) -> Behind<'_>
        requires { from ≤ length self.now.held }
        ensures { result ≡ drop from self.now.held }
    {
        Behind::new(&self.packets, from)
    }

    /// What an interrupt request for so many bytes is given of the packets behind the first `from`, which stay: the
    /// fewest packets, at least one, of which the last has a status other than success or is shorter than the largest
    /// packet, or which have as many bytes as are wanted (USB 2.0, 5.7.3); where the largest packet has 0 bytes, one.
    /// Bytes beyond those that are wanted are dropped, and success is babble then. None where there are no such
    /// packets. For a request that waits at the front each packet is looked at once.
    pub fn filling(&mut self, from: usize, wanted: u32) -> Option<Filling>
        requires { from ≤ length self.old.held }
        ensures same { self.new ≡ self.old }
        ensures cut { option_map (cut_by (drop from self.old.held)) result ≡ interrupt_cut self.old.row.max_packet wanted (drop from self.old.held) }
        ensures there { IfSome result (λ filling. from + filling.count ≤ length self.old.held) }
        ensures some { IfSome result (λ filling. 1 ≤ filling.count) }
        ensures fits { IfSome result (λ filling. filling.done ≤ wanted) }
    {
        let seen = self.seen_behind(from);
        let (fewest, seen) = self
            .behind(from)
            .fewest_filling(self.row.max_packet, wanted, seen);
        self.remember(from, seen);
        Some(self.behind(from).filling_by(wanted, fewest?))
    }

    /// What is remembered of the packets behind the first `from`.
    fn seen_behind(&self, from: usize) -> Seen
        ensures { IsSeen self.now.row.max_packet (drop from self.now.held) result }
    {
        match from {
            0 => self.seen,
            _ => Seen::NOTHING,
        }
    }

    /// It is remembered of those at the front alone.
    fn remember(&mut self, from: usize, seen: Seen)
        requires { IsSeen self.old.row.max_packet (drop from self.old.held) seen }
        ensures { self.new ≡ self.old }
    {
        if from == 0 {
            self.seen = seen;
        }
    }

    /// Gives up the packet that came last.
    pub fn withdraw(&mut self)
        ensures { self.new ≡ record self.old { held = take (length self.old.held - 1) self.old.held } }
    {
        self.packets.pop_back();
        self.seen = Seen::NOTHING;
    }

    /// Gives up the first `count` packets, which requests took.
    pub fn skip(&mut self, count: usize)
        requires { count ≤ length self.old.held }
        ensures { self.new ≡ record self.old { held = drop count self.old.held } }
    {
        if count > 0 {
            self.packets.drain(..count);
            self.seen = Seen::NOTHING;
        }
    }

    /// Drops all packets.
    pub fn clear(&mut self)
        ensures { self.new ≡ record self.old { held = [] } }
    {
        self.packets.clear();
        self.seen = Seen::NOTHING;
    }
}
