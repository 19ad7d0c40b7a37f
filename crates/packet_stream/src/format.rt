//! A family of packet formats, where what was read decides how the next packet is read.

ghost use Rattle.std.specs.Prelude.{◌≡◌, Bool};
ghost use Rattle.usb_base.specs.declared.reason.Reason.{Reason as Why};
ghost use Rattle.packet_stream.specs.Format.{Format, Short, IsSound, reading};
ghost use Rattle.packet_stream.specs.Awaited.{IsAwaited, StaysShort};
ghost use Rattle.packet_stream.specs.Reads.{Answers, bytes_left};

use crate::read::{Read, ReadError};
use std::alloc::Global;
use usb_base::ReceiveBuffer;

/// How the packets of a stream are read, where those that came decide how the next one is.
pub trait PacketFormat {
    /// What decides how the next packet is read.
    type State: Drop;

    /// What is read.
    type Packet: Drop;

    /// The format of the next packet.
    ghost format: { Self.State → Format Self.Packet Why };

    /// The state behind a packet.
    ghost after: { Self.State → Self.Packet → Self.State };

    /// Whether a packet is kept on the heap, in part at least.
    ghost takes_memory: { Self.Packet → Bool };

    /// Takes the packet at the front of the bytes off them, where one is whole. Memory is wanting only for one that
    /// takes some; then, and where none is whole, the bytes stay.
    fn take(
        alloc: Global,
        state: &Self::State,
        bytes: &mut ReceiveBuffer,
    ) -> Result<Read<Self::Packet>, ReadError>
        ensures exact { Answers takes_memory result (reading (format state.now) bytes.old) }
        ensures left { bytes.new ≡ bytes_left result bytes.old };

    /// How many bytes are awaited where less than a packet is there: the least number at which anything of it is
    /// decided. It takes no memory.
    fn awaited(state: &Self::State, bytes: &[u8]) -> usize
        requires { reading (format state.now) bytes.now ≡ Short }
        ensures least { IsAwaited (format state.now) bytes.now result }
        ensures quiet { StaysShort (format state.now) bytes.now result };

    /// The state after a packet.
    fn next(state: &mut Self::State, packet: &Self::Packet)
        ensures { state.new ≡ after state.old packet.now };

    /// In every state what is read is spelled so, and what is spelled so is read.
    ghost sound: { (s : Self.State) → IsSound (format s) };
}
