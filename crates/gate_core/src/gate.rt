//! The gate: it translates between USB/IP clients, one after another, and a usbredir host.

ghost use Rattle.std.specs.Prelude.{◌≡◌, ◌+◌, ◌-◌, ◌++◌, ◌≤◌, [], List, length, ℕ, OnOk, OnErr, IfOk, IsErr, IfSome, IsNone};
ghost use Rattle.gate_history.specs.step.Events.{PastEvent, event_of};
ghost use Rattle.gate_history.specs.declared.item.Item.{Item as PastItem};
ghost use Rattle.gate_history.specs.step.Past.{past};
ghost use Rattle.gate_history.specs.Headline.{counts};
ghost use Rattle.gate_history.specs.step.History.{rest_length};
ghost use Rattle.gate_history.specs.write.All.{counts_of};
ghost use Rattle.gate_history.specs.write.Bytes.{out_host};
ghost use Rattle.usb_base.specs.declared.limits.TheConstants.{LONGEST_CLIENT_PACKET, LONGEST_HOST_PACKET};
ghost use Rattle.gate_core.specs.step.Stands.{GateStands, StandsFor, TakesEvent, StopsInEvent, GateHasFailed};
ghost use Rattle.gate_core.specs.step.Incoming.{TakesIncoming};

use crate::step::inner::Inner;
use gate_history::{Counts, Event, Notes};
use gate_parts::{Outputs, write_hello};
use std::alloc::Global;
use std::marker::Model;
use usb_base::{Bytes, Incoming, Memory, Side};

/// The gate between the streams of clients and of a host.
#[derive(Drop)]
pub struct Gate {
    inner: Inner,
}

impl Model for Gate {
    ghost use Rattle.gate_core.specs.state.Kept.{GateKept};
    ghost use Rattle.gate_core.specs.step.Stands.{IsReady};
    ghost use Rattle.gate_core.specs.inner.step.Steps.{kept_of};

    ghost Value = { GateKept };

    ghost view = { λ gate. kept_of gate.inner };

    ghost invariant = { λ gate. IsReady (kept_of gate.inner) };
}

impl Gate {
    /// The gate to which nothing has happened. It appends its hello for the host. Ids are drawn from the first one on.
    pub fn make(alloc: Global, first_id: u64, to_host: &mut Bytes) -> Result<Gate, Memory>
        requires { (1 ≤ first_id) × (first_id ≤ u32.MAX) }
        ensures made { IfOk result (λ gate. GateStands first_id gate []) }
        ensures sent { OnOk result (to_host.new ≡ to_host.old ++ out_host first_id []) }
        ensures err { OnErr result (to_host.new ≡ to_host.old) }
    {
        let inner = Inner::make(alloc, first_id)?;
        write_hello(alloc, to_host)?;
        Ok(Gate { inner })
    }

    /// Takes the next event: it appends what that sends to each side, and tells its notes. For want of memory
    /// the items before the one that met it are taken, that one has sent nothing, and every later call
    /// answers `Memory` and changes nothing. A packet that met it is held; from a wrong place on nothing is.
    /// A piece of a side that is over does nothing.
    pub fn take(
        &mut self,
        event: Event,
        to_client: &mut Bytes,
        to_host: &mut Bytes,
    ) -> Result<Notes, Memory>
        ensures takes { IfOk result (λ notes. (first : ℕ) (past : List PastEvent) → GateStands first self.old past
            → TakesEvent first self.new past (event_of event.entry) to_client.old to_client.new to_host.old to_host.new notes) }
        ensures stops { OnErr result ((first : ℕ) (past : List PastEvent) → GateStands first self.old past
            → StopsInEvent first self.new past (event_of event.entry) to_client.old to_client.new to_host.old to_host.new) }
        ensures fails { OnErr result (GateHasFailed self.new) }
        ensures failed { GateHasFailed self.old → IsErr result × (self.new ≡ self.old)
            × (to_client.new ≡ to_client.old) × (to_host.new ≡ to_host.old) }
    {
        if let Some(memory) = self.inner.want {
            return Err(memory);
        }
        self.inner.keep_memory(to_client, to_host);
        let mut out = Outputs::new(self.inner.alloc);
        out.exchange(to_client, to_host);
        let taken = match event {
            Event::ClientPiece(piece) => self.inner.take(Side::Client, piece, &mut out),
            Event::ClientEnd => self.inner.change_client(&mut out),
            Event::HostPiece(piece) => self.inner.take(Side::Host, piece, &mut out),
            Event::HostEnd => self.inner.end_host(&mut out),
        };
        out.exchange(to_client, to_host);
        self.inner.tell(taken, out)
    }

    /// Has the next bytes of a side's stream come straight into its memory, at most `limit` of them, and takes them as
    /// an event like the piece that they are. Where none come nothing changes. `None` where `incoming` wasn't asked:
    /// the gate has failed, the side is over, or its stream has no memory for so many.
    pub fn take_from<I: Incoming>(
        &mut self,
        side: Side,
        limit: usize,
        incoming: &mut I,
        to_client: &mut Bytes,
        to_host: &mut Bytes,
    ) -> Option<Result<Notes, Memory>>
        requires { I.can_read incoming.old limit }
        ensures came { IfSome result (λ taken. TakesIncoming I.read_gives side limit taken self.old incoming.old to_client.old to_host.old self.new incoming.new to_client.new to_host.new) }
        ensures none { IsNone result → (self.new ≡ self.old) × (incoming.new ≡ incoming.old)
            × (to_client.new ≡ to_client.old) × (to_host.new ≡ to_host.old) }
        ensures failed { GateHasFailed self.old → IsNone result }
    {
        if self.inner.want.is_some() {
            return None;
        }
        self.inner.keep_memory(to_client, to_host);
        let mut out = Outputs::new(self.inner.alloc);
        out.exchange(to_client, to_host);
        let taken = self.inner.take_from(side, limit, incoming, &mut out);
        out.exchange(to_client, to_host);
        Some(self.inner.tell(taken?, out))
    }

    /// What has been counted.
    pub fn counts(&self) -> Counts
        ensures all { (first : ℕ) (events : List PastEvent) → GateStands first self.now events → result ≡ counts first events }
        ensures items { (first : ℕ) (events : List PastEvent) (items : List PastItem) → StandsFor first self.now events items
            → result ≡ counts_of first (past first items) }
    {
        let kept = self.inner.translator.kept();
        Counts {
            answered: kept.answered,
            unlinked: kept.unlinked,
            left: kept.lives.len() as u64,
            dropped: kept.dropped,
        }
    }

    /// The number of bytes that are held of packets that weren't taken.
    pub fn held(&self) -> u64
        // Whatever happened: for want of memory `StopsInEvent` says of which packets they are.
        ensures held { result ≡ length self.now.client.held + length self.now.host.held }
        ensures all { (first : ℕ) (events : List PastEvent) → GateStands first self.now events → result ≡ rest_length first events }
        // Less than the longest packet of each side.
        ensures few { (first : ℕ) (events : List PastEvent) → GateStands first self.now events → result ≤ (LONGEST_CLIENT_PACKET - 1) + (LONGEST_HOST_PACKET - 1) }
    {
        (self.inner.client.held() + self.inner.host.held()) as u64
    }
}
