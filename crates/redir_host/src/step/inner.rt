//! What a host core keeps, and how acts change it.

ghost use Rattle.std.specs.Prelude.{◌≡◌, [], false, OnOk, OnErr};
ghost use Rattle.redir_host.specs.step.Acts.{Piece};
ghost use Rattle.redir_host.specs.step.Stands.{HostHasFailed, HasPast, HostStands, StopsIn, TakesPiece};
ghost use Rattle.redir_host.specs.inner.Views.{kept_of};

use crate::state::host::Host;
use crate::step::taker::GuestTaker;
use crate::write::note::HostNotes;
use model_device::Gadget;
use packet_stream::{Stream, take_piece};
use redir_data::FromGuest;
use redir_wire::RedirState;
use std::alloc::Global;
use usb_base::{Bytes, Memory};

/// The guest's stream, and the host that takes its packets.
#[derive(Drop)]
pub struct Inner<G> {
    pub alloc: Global,
    pub stream: Stream<FromGuest>,
    pub host: Host<G>,
    /// What was told as memory ran out in an earlier call.
    pub want: Option<Memory>,
}

impl<G> Inner<G> {
    /// Whether it works: once memory has run out in a call, it doesn't any more.
    pub fn works(&self) -> Result<(), Memory>
        ensures ok { OnOk result ((kept_of self.now).failed ≡ false) }
        ensures err { OnErr result (HostHasFailed (kept_of self.now)) }
    {
        match self.want {
            Some(memory) => Err(memory),
            None => Ok(()),
        }
    }

    /// After a call: where that gave an error, it works no more.
    pub fn fail_on_err<T>(&mut self, given: Result<T, Memory>) -> Result<T, Memory>
        ensures same { result ≡ given }
        ensures ok { OnOk given (self.new ≡ self.old) }
        ensures err { OnErr given (HostHasFailed (kept_of self.new)) }
    {
        if let Err(memory) = &given {
            self.want = Some(*memory);
        }
        given
    }
}

impl<G: Gadget> Inner<G> {
    /// The host of a device that was just plugged in.
    pub fn new(alloc: Global, gadget: G) -> Self
        ensures { HostStands G.meaning gadget (kept_of result) [] }
    {
        Inner {
            alloc,
            stream: Stream::new(alloc, RedirState::start()),
            host: Host::new(alloc, gadget),
            want: None,
        }
    }

    /// Takes a piece of the guest's bytes. Those behind a wrong place are dropped. For want of memory the packets
    /// before the one that met it are taken, and that one has sent nothing.
    pub fn take(
        &mut self,
        piece: &[u8],
        out: &mut Bytes,
        notes: &mut HostNotes,
    ) -> Result<(), Memory>
        requires { HasPast G.meaning (kept_of self.old) }
        ensures ok { OnOk result (TakesPiece G.meaning piece.now (kept_of self.old) (kept_of self.new) out.old out.new notes.old notes.new) }
        ensures err { OnErr result (StopsIn G.meaning (Piece piece.now) (kept_of self.old) out.old out.new) }
    {
        let mut taker = GuestTaker {
            alloc: self.alloc,
            host: &mut self.host,
            out,
            notes,
        };
        take_piece(self.alloc, &mut self.stream, piece, &mut taker)
    }
}
