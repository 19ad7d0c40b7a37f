//! The streams of packets, of either sender.

ghost use Rattle.std.specs.Prelude.{◌≡◌};
ghost use Rattle.redir_wire.specs.declared.packet.Way.TheVariants.{ToGuest, ToHost};
ghost use Rattle.redir_data.specs.Packets.{takes_memory as packet_takes_memory};
ghost use Rattle.redir_data.specs.Streams.{advanced, after as after_packet, stream_format};
ghost use Rattle.redir_data.specs.sound.Joined.{stream_sound};

use crate::next::next_redir;
use crate::packet::RedirPacket;
use crate::redir::take_redir;
use packet_stream::{PacketFormat, Read, ReadError};
use redir_wire::{Header, RedirControl, RedirState, Way};
use std::alloc::Global;
use std::marker::PhantomData;
use usb_base::ReceiveBuffer;

/// What a packet changes: a hello tells the state of its stream anew, and no other packet changes it.
pub fn advance(state: &mut RedirState, packet: &RedirPacket)
    ensures { state.new ≡ advanced state.old packet.now }
{
    if let RedirPacket::Plain(RedirControl::Hello(hello)) = packet {
        *state = RedirState::after_hello(hello.get());
    }
}

/// Whose packets a stream has: which way they go.
pub trait Sender {
    ghost use Rattle.redir_wire.specs.declared.packet.Way.{Way as AWay};

    ghost WAY: { AWay };

    const WAY: Way;
}

/// A host, whose packets its guest reads.
pub struct Host;

impl Sender for Host {
    ghost WAY = { ToGuest };

    const WAY: Way = Way::ToGuest;
}

/// A guest, whose packets its host reads.
pub struct Guest;

impl Sender for Guest {
    ghost WAY = { ToHost };

    const WAY: Way = Way::ToHost;
}

/// What this sender's stream has: a hello, and then packets with the capabilities that are agreed.
pub struct SentBy<S: Sender> {
    sender: PhantomData<S>,
}

/// What a host sends, as its guest reads it.
pub type FromHost = SentBy<Host>;

/// What a guest sends, as its host reads it.
pub type FromGuest = SentBy<Guest>;

impl<S: Sender> PacketFormat for SentBy<S> {
    type State = RedirState;

    type Packet = (Header, RedirPacket);

    ghost format = { stream_format S.WAY };

    ghost after = { after_packet };

    ghost takes_memory = { packet_takes_memory };

    fn take(
        alloc: Global,
        state: &RedirState,
        bytes: &mut ReceiveBuffer,
    ) -> Result<Read<(Header, RedirPacket)>, ReadError> {
        take_redir(alloc, *state, S::WAY, bytes)
    }

    fn awaited(state: &RedirState, bytes: &[u8]) -> usize {
        next_redir(*state, S::WAY, bytes)
    }

    fn next(state: &mut RedirState, packet: &(Header, RedirPacket)) {
        advance(state, &packet.1);
    }

    ghost sound = { stream_sound S.WAY };
}
