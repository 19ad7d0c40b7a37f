//! Lists that contracts see as lists.

ghost use Rattle.std.specs.Prelude.{◌≡◌, ◌++◌, ◌∷◌, [], ◌≤◌, ◌<◌, length, take, drop, IsTrue, ◌↔◌, OnOk, OnErr, IfOk};
ghost use Rattle.usb_base.specs.Lists.{is_empty};

use crate::block::{move_to, put_at};
use crate::memory::Memory;
use std::alloc::Global;
use std::marker::Model;

/// A list on the heap. It keeps the allocator that it was made with.
#[derive(Drop)]
pub struct List<T> {
    pub(crate) items: Vec<T>,
    /// The list stands in them from `front` to `end`. What stands before and behind counts for nothing: its room is
    /// kept for what may be put there.
    pub(crate) front: usize,
    pub(crate) end: usize,
}

/// Bytes, as they come from a peer or go to one.
pub type Bytes = List<u8>;

impl<T> Model for List<T> {
    ghost use Rattle.std.specs.Prelude.{List as Items, take, drop, length, ◌≤◌};

    ghost Value = { Items T };

    ghost view = { λ list. drop list.front (take list.end list.items.items) };

    ghost invariant = { λ list. (list.front ≤ list.end) × (list.end ≤ length list.items.items) };
}

impl<T> List<T> {
    /// The empty list, which takes no memory.
    pub fn new(alloc: Global) -> Self
        ensures { result ≡ [] }
    {
        List {
            items: Vec::new(alloc),
            front: 0,
            end: 0,
        }
    }

    /// Its items, in order.
    pub fn as_slice(&self) -> &[T]
        ensures { result.now ≡ self.now }
    {
        &self.items[self.front..self.end]
    }

    /// How many items it has.
    pub fn len(&self) -> usize
        ensures { result ≡ length self.now }
    {
        self.end - self.front
    }

    /// How many items it has memory for, with the room in front.
    pub(crate) fn capacity(&self) -> usize {
        self.items.capacity()
    }

    /// Whether it has none.
    pub fn is_empty(&self) -> bool
        ensures is { result ≡ is_empty self.now }
        ensures none { IsTrue result ↔ (self.now ≡ []) }
    {
        self.as_slice().is_empty()
    }
}

impl<T: Drop> List<T> {
    /// Puts an item at the end. For want of memory the list stands, and the item is dropped.
    pub fn push(&mut self, item: T) -> Result<(), Memory>
        ensures ok { OnOk result (self.new ≡ self.old ++ item ∷ []) }
        ensures err { OnErr result (self.new ≡ self.old) }
    {
        if self.end < self.items.len() {
            self.items[self.end] = item;
        } else {
            self.items.push(item)?;
        }
        self.end += 1;
        Ok(())
    }

    /// Makes room for so many items more, so that none is moved as they are put at the end.
    pub fn reserve(&mut self, more: usize) -> Result<(), Memory>
        ensures stands { self.new ≡ self.old }
        ensures wants { OnErr result (0 < more) }
    {
        let room = self.items.len() - self.end;
        self.items.reserve(more.saturating_sub(room))?;
        Ok(())
    }

    /// Keeps the first `len` items.
    pub fn cut(&mut self, len: usize)
        requires { len ≤ length self.old }
        ensures { self.new ≡ take len self.old }
    {
        self.items.truncate(self.front + len);
        self.end = self.front + len;
    }

    /// After a call that puts items behind the first `len`: where it gave an error, what it has put there is dropped.
    /// So all of them come, or none.
    pub fn cut_on_err<V, E>(&mut self, len: usize, given: Result<V, E>) -> Result<V, E>
        requires { OnErr given (len ≤ length self.old) }
        ensures same { result ≡ given }
        ensures ok { OnOk given (self.new ≡ self.old) }
        ensures err { OnErr given (self.new ≡ take len self.old) }
    {
        if given.is_err() {
            self.cut(len);
        }
        given
    }

    /// Drops every item, and keeps the room.
    pub fn clear(&mut self)
        ensures { self.new ≡ [] }
    {
        self.items.clear();
        self.front = 0;
        self.end = 0;
    }
}

/// How many bytes a list has at least that is moved and not copied where it is put behind another.
pub(crate) const LONG: usize = 32_768;

/// The room before the bytes of a long list: for the head of any packet that carries them.
pub(crate) const ROOM: usize = 64;

impl List<u8> {
    /// A copy of a piece. It takes no memory where that is empty.
    pub fn copied(alloc: Global, piece: &[u8]) -> Result<Self, Memory>
        ensures ok { IfOk result (λ copy. copy ≡ piece.now) }
        ensures err { OnErr result (0 < length piece.now) }
    {
        if piece.len() < LONG {
            let mut copy = List::new(alloc);
            copy.append(piece)?;
            return Ok(copy);
        }
        let mut items = Vec::with_capacity(alloc, ROOM + piece.len())?;
        items.extend_from_slice(&[0; ROOM])?;
        items.extend_from_slice(piece)?;
        Ok(List::between(items, ROOM, ROOM + piece.len()))
    }

    /// These bytes, which are not copied.
    pub fn of(items: Vec<u8>) -> Self
        ensures { result ≡ items.items }
    {
        let end = items.len();
        List::between(items, 0, end)
    }

    /// Those of these bytes from `front` to `end`, which are not copied. What stands before and behind them is room.
    pub(crate) fn between(items: Vec<u8>, front: usize, end: usize) -> Self
        requires { (front ≤ end) × (end ≤ length items.items) }
        ensures { result ≡ drop front (take end items.items) }
    {
        List { items, front, end }
    }

    /// Puts a piece at the end.
    pub fn append(&mut self, piece: &[u8]) -> Result<(), Memory>
        ensures ok { OnOk result (self.new ≡ self.old ++ piece.now) }
        ensures err { OnErr result (self.new ≡ self.old) }
        ensures wants { OnErr result (0 < length piece.now) }
    {
        put_at(&mut self.items, self.end, piece)?;
        self.end += piece.len();
        Ok(())
    }

    /// Puts a list at the end. A long one is not copied where it has room for the bytes that stand before it: they are
    /// put into that, and the list takes the place of this one.
    pub fn append_list(&mut self, tail: List<u8>) -> Result<(), Memory>
        ensures ok { OnOk result (self.new ≡ self.old ++ tail) }
        ensures err { OnErr result (self.new ≡ self.old) }
        ensures wants { OnErr result (0 < length tail) }
    {
        let mut tail = tail;
        let len = self.len();
        if tail.len() < LONG || tail.front < len {
            return self.append(tail.as_slice());
        }
        let front = tail.front - len;
        tail.items.as_mut_slice()[front..front + len].copy_from_slice(self.as_slice());
        tail.front = front;
        *self = tail;
        Ok(())
    }

    /// Drops the first `count` bytes, in one move of those that stay.
    pub fn skip(&mut self, count: usize)
        requires { count ≤ length self.old }
        ensures { self.new ≡ drop count self.old }
    {
        move_to(&mut self.items, self.front + count, self.end, self.front);
        self.end -= count;
    }

    /// Drops the first `count` bytes and moves none: their room is kept.
    pub fn advance(&mut self, count: usize)
        requires { count ≤ length self.old }
        ensures { self.new ≡ drop count self.old }
    {
        self.front += count;
    }
}
