//! What the gate keeps, and how an event changes it.

ghost use Rattle.std.specs.Prelude.{◌≡◌, ◌≤◌, [], IfOk, IfSome, IsNone};
ghost use Rattle.gate_history.specs.step.Events.{ClientEnd, HostEnd};
ghost use Rattle.gate_core.specs.step.Stands.{HasPast, GateStands, piece_of};
ghost use Rattle.gate_core.specs.inner.step.Steps.{TakesOrStops, TakesFrom, kept_of, told, left_by};

use crate::step::taker::ItemTaker;
use crate::step::translator::Translator;
use gate_history::{Item, Notes};
use gate_parts::Outputs;
use packet_stream::{Stream, take_piece, take_piece_from};
use redir_data::FromHost;
use redir_wire::RedirState;
use std::alloc::Global;
use usb_base::{Bytes, Incoming, Memory, Side};
use usbip_urb::ClientFormat;

/// Both streams, and what is kept of their items.
#[derive(Drop)]
pub struct Inner {
    pub alloc: Global,
    /// The present client's.
    pub client: Stream<ClientFormat>,
    pub host: Stream<FromHost>,
    pub translator: Translator,
    /// What was told as memory ran out in an earlier event.
    pub want: Option<Memory>,
}

impl Inner {
    /// The gate to which nothing has happened.
    pub fn make(alloc: Global, first_id: u64) -> Result<Inner, Memory>
        requires { 1 ≤ first_id }
        ensures { IfOk result (λ gate. GateStands first_id (kept_of gate) []) }
    {
        Ok(Inner {
            alloc,
            client: Stream::new(alloc, ()),
            host: Stream::new(alloc, RedirState::start()),
            translator: Translator::make(alloc, first_id)?,
            want: None,
        })
    }

    /// Long bodies leave a stream with the memory that they came in, which the list that is sent to the other side has
    /// then. So each stream keeps the memory of that list, once it is sent and empty.
    pub fn keep_memory(&mut self, to_client: &mut Bytes, to_host: &mut Bytes)
        ensures stands { self.new ≡ self.old }
        ensures client { to_client.new ≡ to_client.old }
        ensures host { to_host.new ≡ to_host.old }
    {
        self.client.keep_memory(to_host);
        self.host.keep_memory(to_client);
    }

    /// Takes a piece of a side's stream.
    pub fn take(&mut self, side: Side, piece: &[u8], out: &mut Outputs) -> Result<(), Memory>
        requires { HasPast (kept_of self.old) }
        ensures { TakesOrStops result self.old self.new (piece_of side piece.now) out.old out.new }
    {
        let mut taker = ItemTaker {
            translator: &mut self.translator,
            out,
        };
        match side {
            Side::Client => take_piece(self.alloc, &mut self.client, piece, &mut taker),
            Side::Host => take_piece(self.alloc, &mut self.host, piece, &mut taker),
        }
    }

    /// Takes what comes straight into a side's stream as a piece of it.
    pub fn take_from<I: Incoming>(
        &mut self,
        side: Side,
        limit: usize,
        incoming: &mut I,
        out: &mut Outputs,
    ) -> Option<Result<(), Memory>>
        requires past { HasPast (kept_of self.old) }
        requires ready { I.can_read incoming.old limit }
        ensures came { IfSome result (λ taken. TakesFrom (piece_of side) I.read_gives limit taken self.old incoming.old out.old self.new incoming.new out.new) }
        ensures none { IsNone result → (self.new ≡ self.old) × (incoming.new ≡ incoming.old) × (out.new ≡ out.old) }
    {
        let mut taker = ItemTaker {
            translator: &mut self.translator,
            out,
        };
        match side {
            Side::Client => take_piece_from(
                self.alloc,
                &mut self.client,
                limit,
                incoming,
                &mut taker,
            ),
            Side::Host => take_piece_from(self.alloc, &mut self.host, limit, incoming, &mut taker),
        }
    }

    /// What is told of an event that was taken so. That memory ran out within it is kept.
    pub fn tell(&mut self, taken: Result<(), Memory>, out: Outputs) -> Result<Notes, Memory>
        ensures told { result ≡ told taken out.notes }
        ensures kept { self.new ≡ left_by taken self.old }
    {
        match taken {
            Ok(()) => Ok(out.notes),
            Err(memory) => {
                self.want = Some(memory);
                Err(memory)
            }
        }
    }

    /// Takes the client's end. The next client may come.
    pub fn change_client(&mut self, out: &mut Outputs) -> Result<(), Memory>
        requires { HasPast (kept_of self.old) }
        ensures { TakesOrStops result self.old self.new ClientEnd out.old out.new }
    {
        self.translator.take(Item::ClientLeft, out)?;
        self.client = Stream::new(self.alloc, ());
        Ok(())
    }

    /// Takes the host's end.
    pub fn end_host(&mut self, out: &mut Outputs) -> Result<(), Memory>
        requires { HasPast (kept_of self.old) }
        ensures { TakesOrStops result self.old self.new HostEnd out.old out.new }
    {
        if self.host.is_over() {
            return Ok(());
        }
        self.translator.take(Item::HostLeft, out)?;
        self.host.end();
        Ok(())
    }
}
