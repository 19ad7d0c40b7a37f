//! The bytes of a stream, as its packets are taken out of them.

ghost use Rattle.std.specs.Prelude.{◌≡◌, ◌+◌, ◌++◌, ◌<◌, ◌≤◌, [], length, take, drop, IsTrue, ◌↔◌, OnOk, OnErr, IfSome, IsNone};
ghost use Rattle.usb_base.specs.Incoming.{HasCome};
ghost use Rattle.usb_base.specs.Lists.{is_empty};

use crate::block::{lengthen, move_to, put_at, read_at};
use crate::incoming::Incoming;
use crate::list::{Bytes, LONG, ROOM};
use crate::memory::Memory;
use crate::packet_bytes::PacketBytes;
use std::alloc::Global;
use std::marker::Model;
use std::mem;

/// Two blocks of so many bytes stay in the caches near a processor.
const NEAR: usize = 262_144;

/// The bytes of a stream that have come and are in no packet that was taken.
#[derive(Drop)]
pub struct ReceiveBuffer {
    /// They stand in it from `front` to `end`. What stands before and behind them counts for nothing: it is room, which
    /// has bytes in it so that it can be lent to what brings the next ones.
    block: Vec<u8>,
    front: usize,
    end: usize,
    /// A block for later, that another list needed no more. What stands in it counts for nothing.
    spare: Vec<u8>,
}

impl Model for ReceiveBuffer {
    ghost use Rattle.std.specs.Prelude.{◌≤◌, List as Items, ℕ, take, drop, length};

    ghost Value = { Items ℕ };

    ghost view = { λ buffer. drop buffer.front (take buffer.end buffer.block.items) };

    ghost invariant = { λ buffer. (buffer.front ≤ buffer.end) × (buffer.end ≤ length buffer.block.items) };
}

impl ReceiveBuffer {
    /// The buffer of a stream of which nothing has come. It takes no memory.
    pub fn new(alloc: Global) -> Self
        ensures { result ≡ [] }
    {
        ReceiveBuffer {
            block: Vec::new(alloc),
            front: 0,
            end: 0,
            spare: Vec::new(alloc),
        }
    }

    /// Its bytes, in order.
    pub fn as_slice(&self) -> &[u8]
        ensures { result.now ≡ self.now }
    {
        &self.block[self.front..self.end]
    }

    /// How many bytes it has.
    pub fn len(&self) -> usize
        ensures { result ≡ length self.now }
    {
        self.end - self.front
    }

    /// Whether it has none.
    pub fn is_empty(&self) -> bool
        ensures is { result ≡ is_empty self.now }
        ensures none { IsTrue result ↔ (self.now ≡ []) }
    {
        self.as_slice().is_empty()
    }

    /// Drops every byte, and keeps the room.
    pub fn clear(&mut self)
        ensures { self.new ≡ [] }
    {
        self.end = self.front;
    }

    /// Puts a piece at the end, where `awaited` bytes are to stand in all before any is taken: room for all of them is
    /// made at once, so that none is moved as the others come. What is there may be moved for that room: to the memory
    /// that is kept for later (`move_to_spare`), to the front of its own (`settle`), or to more memory (`reserve`). It
    /// takes no memory for an empty piece.
    pub fn receive(&mut self, piece: &[u8], awaited: usize) -> Result<(), Memory>
        ensures ok { OnOk result (self.new ≡ self.old ++ piece.now) }
        ensures err { OnErr result (self.new ≡ self.old) }
        ensures wants { OnErr result (0 < length piece.now) }
    {
        if piece.is_empty() {
            return Ok(());
        }
        self.make_room(piece.len(), awaited)?;
        put_at(&mut self.block, self.end, piece)?;
        self.end += piece.len();
        Ok(())
    }

    /// Has the next bytes come straight into its memory, at most `limit` of them, and says how many did. There is room
    /// for those that are awaited, as where a piece is put. `None` for want of memory: `incoming` wasn't asked then.
    pub fn receive_from<I: Incoming>(
        &mut self,
        limit: usize,
        awaited: usize,
        incoming: &mut I,
    ) -> Option<usize>
        requires { I.can_read incoming.old limit }
        ensures came { IfSome result (λ count. (came : HasCome I.read_gives limit count incoming.old incoming.new) × (self.new ≡ self.old ++ take count came.room)) }
        ensures none { IsNone result → (self.new ≡ self.old) × (incoming.new ≡ incoming.old) }
    {
        self.make_room(limit, awaited).ok()?;
        lengthen(&mut self.block, self.end.saturating_add(limit)).ok()?;
        let count = read_at(&mut self.block, self.end, limit, incoming);
        self.end += count;
        Some(count)
    }

    /// Keeps the memory of an empty list for later, where that is long, and more than what it keeps so far, which the
    /// list gets for it. What stands in the memory of an empty list is room.
    pub fn keep_memory(&mut self, empty: &mut Bytes)
        ensures stands { self.new ≡ self.old }
        ensures empty { empty.new ≡ empty.old }
    {
        if !empty.is_empty() {
            return;
        }
        empty.front = 0;
        empty.end = 0;
        if empty.capacity() > LONG.max(self.spare.capacity()) {
            mem::swap(&mut self.spare, &mut empty.items);
        }
    }

    /// Makes room for so many bytes more, and for all that are awaited.
    fn make_room(&mut self, more: usize, awaited: usize) -> Result<(), Memory>
        ensures { self.new ≡ self.old }
    {
        let missing = awaited.saturating_sub(self.len()).max(more);
        self.move_to_spare(missing)?;
        self.settle(missing)?;
        self.reserve(missing)
    }

    /// Makes room for so many bytes behind those that are there.
    fn reserve(&mut self, more: usize) -> Result<(), Memory>
        ensures { self.new ≡ self.old }
    {
        let room = self.block.len() - self.end;
        self.block.reserve(more.saturating_sub(room))?;
        Ok(())
    }

    /// Moves the bytes to the memory that is kept for later, where they have no room for so many more and that has, and
    /// with these are more than `NEAR`. So one block goes round with such long bodies, and not two in turns, each out of
    /// the processor's cache by then; with shorter ones two do, and what stands behind a body is moved once.
    fn move_to_spare(&mut self, more: usize) -> Result<(), Memory>
        ensures { self.new ≡ self.old }
    {
        let needed = ROOM.saturating_add(self.len()).saturating_add(more);
        let is_short = self.block.capacity() < needed;
        if needed > NEAR && is_short && needed <= self.spare.capacity() {
            lengthen(&mut self.spare, ROOM)?;
            put_at(&mut self.spare, ROOM, &self.block[self.front..self.end])?;
            mem::swap(&mut self.spare, &mut self.block);
            self.end = ROOM + (self.end - self.front);
            self.front = ROOM;
        }
        Ok(())
    }

    /// Moves the bytes to the front, behind the `ROOM` that a long list has before it, where that is worth it for so
    /// many more (`is_movable`). Where there are none, the next ones come there.
    fn settle(&mut self, more: usize) -> Result<(), Memory>
        ensures { self.new ≡ self.old }
    {
        if self.is_empty() {
            lengthen(&mut self.block, ROOM)?;
            self.end = ROOM;
            self.front = ROOM;
        } else if self.front > ROOM && self.is_movable(more) {
            move_to(&mut self.block, self.front, self.end, ROOM);
            self.end = ROOM + (self.end - self.front);
            self.front = ROOM;
        }
        Ok(())
    }

    /// Whether the bytes are no more than there is room before them, or have no room for so many behind them.
    fn is_movable(&self, more: usize) -> bool {
        let room = self.block.capacity().saturating_sub(self.end);
        self.len() <= self.front || room < more
    }

    /// An empty buffer, in the memory that is kept for later, if there is some.
    fn in_spare(&mut self, alloc: Global) -> ReceiveBuffer
        ensures stands { self.new ≡ self.old }
        ensures empty { result ≡ [] }
    {
        ReceiveBuffer {
            block: mem::replace(&mut self.spare, Vec::new(alloc)),
            front: 0,
            end: 0,
            spare: Vec::new(alloc),
        }
    }
}

impl PacketBytes for ReceiveBuffer {
    ghost contents = { λ buffer. buffer };

    fn as_slice(&self) -> &[u8] {
        self.as_slice()
    }

    /// No byte is moved: the room of those that are dropped is used again at the next `receive`.
    fn advance(&mut self, count: usize) {
        self.front += count;
    }

    /// Where the part is long, and no shorter than what stands behind it, the memory of the bytes becomes its own, and
    /// what stands behind is copied to another; else the part is copied.
    fn take_part(
        &mut self,
        alloc: Global,
        from: usize,
        len: usize,
        size: usize,
    ) -> Result<Bytes, Memory> {
        if len < LONG || len < self.len() - size {
            let part = Bytes::copied(alloc, &self.as_slice()[from..from + len])?;
            self.advance(size);
            return Ok(part);
        }
        let mut rest = self.in_spare(alloc);
        rest.receive(&self.as_slice()[size..], 0)?;
        let taken = mem::replace(self, rest);
        let front = taken.front + from;
        Ok(Bytes::between(taken.block, front, front + len))
    }
}
