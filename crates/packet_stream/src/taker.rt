//! What takes the packets of a stream, and the loop that hands them to it.

ghost use Rattle.std.specs.Prelude.{◌≡◌, ℕ, Bool, Result, Ok, Err, IfSome, IsNone};
ghost use Rattle.usb_base.specs.declared.memory.Memory.{Memory as NoMemory};
ghost use Rattle.usb_base.specs.declared.reason.Reason.{Reason as Why};
ghost use Rattle.packet_stream.specs.Takers.{taken_by, ended_if, CanTakeNext, CanTakeWhole, CanTakePiece, CanTakeAny, TakesNext, TakesWhole, TakesPiece, TakesCome};

use crate::format::PacketFormat;
use crate::read::ReadError;
use crate::stream::Stream;
use std::alloc::Global;
use usb_base::{Incoming, Memory, Reason};

/// Takes the packets of a stream one by one, each with its place in the stream.
pub trait PacketTaker<F: PacketFormat> {
    /// What it can take.
    ghost CanTake: { Self → ℕ → F.Packet → Type 0 };

    /// What it makes of a packet, and of a wrong place.
    ghost Takes: { ℕ → Result F.Packet Why → Result (Unit {0}) NoMemory → Self → Self → Type 0 };

    ghost over_in: { Self → Bool };

    /// Takes the next packet.
    fn take(&mut self, place: u64, packet: F::Packet) -> Result<(), Memory>
        requires { CanTake self.old place packet }
        ensures { Takes place (Ok packet) result self.old self.new };

    /// Takes the wrong place, behind which there is no packet.
    fn refuse(&mut self, place: u64, reason: Reason) -> Result<(), Memory>
        ensures { Takes place (Err reason) result self.old self.new };

    /// Whether it takes nothing more of the stream.
    fn is_over(&self) -> bool
        ensures { result ≡ over_in self.now };
}

/// Puts a piece into a stream, and hands on the packets that are whole with it. The stream ends once nothing more is
/// taken of it. For want of memory the piece hasn't come, or all before the packet that met it are taken.
pub fn take_piece<F: PacketFormat, T: PacketTaker<F>>(
    alloc: Global,
    stream: &mut Stream<F>,
    piece: &[u8],
    taker: &mut T,
) -> Result<(), Memory>
    requires { CanTakePiece (taken_by F.format F.after F.takes_memory T.Takes T.over_in) T.CanTake (record { stream = stream.old; taker = taker.old }) piece.now }
    ensures { TakesPiece (taken_by F.format F.after F.takes_memory T.Takes T.over_in) result (record { stream = stream.old; taker = taker.old }) piece.now (record { stream = stream.new; taker = taker.new }) }
{
    stream.put(piece)?;
    take_whole(alloc, stream, taker)
}

/// Has the next piece of a stream come straight into its memory, at most `limit` bytes, and hands on the packets that
/// are whole with it. `None` where `incoming` wasn't asked: the stream is over, or has no memory for so many.
pub fn take_piece_from<F: PacketFormat, T: PacketTaker<F>, I: Incoming>(
    alloc: Global,
    stream: &mut Stream<F>,
    limit: usize,
    incoming: &mut I,
    taker: &mut T,
) -> Option<Result<(), Memory>>
    requires ready { I.can_read incoming.old limit }
    requires takes { CanTakeAny (taken_by F.format F.after F.takes_memory T.Takes T.over_in) T.CanTake (record { stream = stream.old; taker = taker.old }) }
    ensures came { IfSome result (λ taken. TakesCome (taken_by F.format F.after F.takes_memory T.Takes T.over_in) I.read_gives limit taken (record { stream = stream.old; taker = taker.old }) incoming.old (record { stream = stream.new; taker = taker.new }) incoming.new) }
    ensures none { IsNone result → (stream.new ≡ stream.old) × (taker.new ≡ taker.old) × (incoming.new ≡ incoming.old) }
{
    if stream.receive_from(limit, incoming)? == 0 {
        return Some(Ok(()));
    }
    Some(take_whole(alloc, stream, taker))
}

/// Hands on the packets that are whole.
fn take_whole<F: PacketFormat, T: PacketTaker<F>>(
    alloc: Global,
    stream: &mut Stream<F>,
    taker: &mut T,
) -> Result<(), Memory>
    requires { CanTakeWhole (taken_by F.format F.after F.takes_memory T.Takes T.over_in) T.CanTake (record { stream = stream.old; taker = taker.old }) }
    ensures { TakesWhole (taken_by F.format F.after F.takes_memory T.Takes T.over_in) result (record { stream = stream.old; taker = taker.old }) (record { stream = stream.new; taker = taker.new }) }
{
    'packets: while take_next(alloc, stream, taker)? {}
    Ok(())
}

/// Hands on what comes next, and tells whether there was something.
fn take_next<F: PacketFormat, T: PacketTaker<F>>(
    alloc: Global,
    stream: &mut Stream<F>,
    taker: &mut T,
) -> Result<bool, Memory>
    requires { CanTakeNext (taken_by F.format F.after F.takes_memory T.Takes T.over_in) T.CanTake (record { stream = stream.old; taker = taker.old }) }
    ensures { TakesNext (taken_by F.format F.after F.takes_memory T.Takes T.over_in) result (record { stream = stream.old; taker = taker.old }) (record { stream = stream.new; taker = taker.new }) }
{
    match stream.next(alloc) {
        Ok(Some((place, packet))) => taker.take(place, packet)?,
        Ok(None) => return Ok(false),
        Err(ReadError::Refused { place, reason }) => taker.refuse(place, reason)?,
        Err(ReadError::Memory(memory)) => return Err(memory),
    }
    close(stream, taker);
    Ok(true)
}

/// Ends a stream of which nothing more is taken.
fn close<F: PacketFormat, T: PacketTaker<F>>(stream: &mut Stream<F>, taker: &T)
    ensures { stream.new ≡ ended_if (T.over_in taker.now) stream.old }
{
    if taker.is_over() {
        stream.end();
    }
}
