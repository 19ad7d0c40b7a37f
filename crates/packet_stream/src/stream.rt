//! One side's stream, of which whole packets are taken as its bytes come in pieces.

ghost use Rattle.std.specs.Prelude.{◌≡◌, ◌<◌, ◌^◌, [], length, take, true, false, OnOk, OnErr, IfSome, IsNone};
ghost use Rattle.usb_base.specs.Incoming.{HasCome};
ghost use Rattle.packet_stream.specs.Split.{reads};
ghost use Rattle.packet_stream.specs.Awaited.{StaysShort};
ghost use Rattle.packet_stream.specs.Streams.{StreamView, passed, ended, after_piece, Follows, Puts, Nexts, Changes, Receives};

use crate::format::PacketFormat;
use crate::read::{Read, ReadError};
use std::alloc::Global;
use std::marker::Model;
use std::snapshot::Snapshot;
use usb_base::{Bytes, Incoming, Memory, ReceiveBuffer};

/// The packet that was given last, with all that has come behind it.
#[derive(Drop)]
struct Given {
    /// Where it begins in the side's stream: it counts from the first byte, and stands still at `u64::MAX`.
    place: u64,
    len: usize,
    /// They are not kept: only contracts speak of them.
    bytes: Snapshot<ReceiveBuffer>,
}

/// One side's stream: the bytes that have come of it and belong to no packet that was taken, where in the
/// stream those begin, and what decides how they are read.
#[derive(Drop)]
pub struct Stream<F: PacketFormat> {
    state: F::State,
    /// From the next packet on.
    bytes: ReceiveBuffer,
    /// Where the next packet begins in the side's stream, counted in the same way.
    place: u64,
    /// It counts as held until the next call.
    given: Given,
    /// How many bytes are awaited from the next packet on: with fewer it isn't read.
    awaited: usize,
    /// Nothing more is read of it.
    over: bool,
}

impl<F: PacketFormat> Model for Stream<F> {
    ghost Value = { StreamView F.State };

    ghost view = { λ s. record {
      state = s.state;
      rest = s.bytes;
      place = s.place;
      held = s.given.bytes.value;
      at = s.given.place;
      over = s.over;
    } };

    ghost invariant = { λ s. (s.given.len ≡ length s.given.bytes.value) × (s.given.len < 2 ^ 63) × StaysShort (F.format s.state) s.bytes s.awaited };
}

impl<F: PacketFormat> Stream<F> {
    /// The stream of a side that has sent nothing yet.
    pub fn new(alloc: Global, state: F::State) -> Self
        ensures kept { result ≡ record { state = state; rest = []; place = 0; held = []; at = 0; over = false } }
        ensures follows { Follows (reads F.format F.after) (record { state = state; place = 0 }) result [] [] }
    {
        let bytes = ReceiveBuffer::new(alloc);
        let given = given_from(0, &bytes);
        Stream {
            state,
            bytes,
            place: 0,
            given,
            awaited: 0,
            over: false,
        }
    }

    /// Whether nothing more is read of it.
    pub fn is_over(&self) -> bool
        ensures { result ≡ self.now.over }
    {
        self.over
    }

    /// How many bytes are held: those that belong to no packet that was given before the last call.
    pub fn held(&self) -> usize
        ensures held { result ≡ length self.now.held }
        ensures small { result < 2 ^ 63 }
    {
        self.given.len
    }

    /// How the next packet is read.
    pub fn state(&self) -> &F::State
        ensures { result.now ≡ self.now.state }
    {
        &self.state
    }

    /// Keeps the memory of an empty list for the bytes that come. What has come stands.
    pub fn keep_memory(&mut self, empty: &mut Bytes)
        ensures stands { self.new ≡ self.old }
        ensures empty { empty.new ≡ empty.old }
    {
        self.bytes.keep_memory(empty);
    }

    /// Puts a piece behind the bytes that are kept. A stream that is over stays as it is. For want of memory the piece
    /// hasn't come.
    pub fn put(&mut self, piece: &[u8]) -> Result<(), Memory>
        ensures ok { OnOk result (self.new ≡ after_piece self.old piece.now) }
        ensures follows { OnOk result (Puts (reads F.format F.after) piece.now self.old self.new) }
        ensures err { OnErr result (self.new ≡ passed self.old) }
        ensures wants { OnErr result ((0 < length piece.now) × (self.old.over ≡ false)) }
    {
        if self.over {
            return Ok(());
        }
        let put = self.bytes.receive(piece, self.awaited);
        self.given = given_from(self.place, &self.bytes);
        put
    }

    /// Has the next bytes come straight into its memory, at most `limit` of them, and says how many came: they are a
    /// piece of it then. `None` where it is over, or has no memory for so many: `incoming` wasn't asked then.
    pub fn receive_from<I: Incoming>(&mut self, limit: usize, incoming: &mut I) -> Option<usize>
        requires { I.can_read incoming.old limit }
        ensures came { IfSome result (λ count. (came : HasCome I.read_gives limit count incoming.old incoming.new) × Receives (reads F.format F.after) count (take count came.room) self.old self.new) }
        ensures none { IsNone result → (self.new ≡ self.old) × (incoming.new ≡ incoming.old) }
    {
        if self.over {
            return None;
        }
        let count = self.bytes.receive_from(limit, self.awaited, incoming)?;
        if count > 0 {
            self.given = given_from(self.place, &self.bytes);
        }
        Some(count)
    }

    /// Takes the next packet with its place, `None` where it isn't whole yet or the stream is over. What is short is
    /// not read again until as many bytes are there as it awaits. A wrong packet ends the stream, and is told with its
    /// place in it. For want of memory the packet stays, to be read again.
    pub fn next(&mut self, alloc: Global) -> Result<Option<(u64, F::Packet)>, ReadError>
        ensures changes { Changes result self.old self.new }
        ensures over { self.old.over ≡ true → result ≡ Ok None }
        ensures follows { Nexts (reads F.format F.after) F.takes_memory result self.old self.new }
    {
        self.given = given_from(self.place, &self.bytes);
        if self.over {
            return Ok(None);
        }
        if self.bytes.len() < self.awaited {
            return Ok(None);
        }
        match F::take(alloc, &self.state, &mut self.bytes) {
            Ok(Read::Whole(packet, len)) => {
                F::next(&mut self.state, &packet);
                self.place = self.place.saturating_add(len as u64);
                self.awaited = 0;
                Ok(Some((self.given.place, packet)))
            }
            Ok(Read::Short) => {
                self.awaited = F::awaited(&self.state, self.bytes.as_slice());
                Ok(None)
            }
            Err(ReadError::Refused { place, reason }) => {
                let place = self.place.saturating_add(place);
                self.end();
                Err(ReadError::Refused { place, reason })
            }
            Err(ReadError::Memory(memory)) => Err(ReadError::Memory(memory)),
        }
    }

    /// Ends the stream at the packet that was given last, whole as it is, and tells its place: for a rule that
    /// its format doesn't know. Where none was given since, that is the place of the next packet.
    pub fn refuse(&mut self) -> u64
        ensures place { result ≡ self.old.at }
        ensures ends { self.new ≡ ended self.old }
    {
        self.end();
        self.given.place
    }

    /// Ends the stream, and drops what is held.
    pub fn end(&mut self)
        ensures { self.new ≡ ended self.old }
    {
        self.bytes.clear();
        self.given = given_from(self.given.place, &self.bytes);
        self.awaited = 0;
        self.over = true;
    }
}

/// The packet that begins there, with all these bytes.
fn given_from(place: u64, bytes: &ReceiveBuffer) -> Given
    ensures place { result.place ≡ place }
    ensures len { result.len ≡ length bytes.now }
    ensures small { result.len < 2 ^ 63 }
    ensures bytes { result.bytes.value ≡ bytes.now }
{
    Given {
        place,
        len: bytes.as_slice().len(),
        bytes: Snapshot::of(bytes),
    }
}
