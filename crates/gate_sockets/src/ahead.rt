//! The bytes of a link that were read ahead of the polls that give them.

ghost use Rattle.std.specs.Prelude.{◌≡◌, [], length, min, take, drop};
ghost use Rattle.gate_sockets.specs.Ahead.{ReadsAhead};

use crate::connection::Connection;
use crate::step::{Step, step_of};
use std::alloc::Global;
use std::marker::Model;

/// A queue of bytes. It takes memory as they come, and gives it back once all are given.
#[derive(Drop)]
pub(crate) struct Ahead {
    alloc: Global,
    bytes: Vec<u8>,
    /// How many of the bytes were given.
    given: usize,
}

impl Model for Ahead {
    ghost use Rattle.std.specs.Prelude.{◌≤◌, ℕ, List, drop, length};

    ghost Value = { List ℕ };

    ghost view = { λ ahead. drop ahead.given ahead.bytes.items };

    ghost invariant = { λ ahead. ahead.given ≤ length ahead.bytes.items };
}

impl Ahead {
    /// None, which takes no memory.
    pub(crate) fn new(alloc: Global) -> Ahead
        ensures { result ≡ [] }
    {
        Ahead {
            alloc,
            bytes: Vec::new(alloc),
            given: 0,
        }
    }

    /// Nothing any more.
    pub(crate) fn clear(&mut self)
        ensures { self.new ≡ [] }
    {
        self.bytes = Vec::new(self.alloc);
        self.given = 0;
    }

    /// Reads what the link has now behind the others, where there is memory for it, as far as `most` bytes in all.
    pub(crate) fn read_on<S: Connection>(
        &mut self,
        stream: &mut S,
        most: usize,
        chunk: &mut [u8],
    ) -> Step
        ensures { ReadsAhead S.read_gives result stream.old stream.new self.old self.new }
    {
        let free = most.saturating_sub(self.bytes.len());
        let room = chunk.len().min(free);
        if room == 0 || self.bytes.reserve(room).is_err() {
            return Step::Blocked;
        }
        let chunk = &mut chunk[..room];
        let step = step_of(stream.read_once(chunk), room);
        if let Step::Moved(count) = step {
            match self.bytes.extend_from_slice(&chunk[..count]) {
                Ok(()) => {}
                Err(_) => unreachable!(),
            }
        }
        step
    }

    /// Gives a front of them, as much as has room, and returns how many.
    pub(crate) fn give(&mut self, buf: &mut [u8]) -> usize
        ensures count { result ≡ min (length self.old) (length buf.old) }
        ensures bytes { take result buf.new ≡ take result self.old }
        ensures rest { self.new ≡ drop result self.old }
    {
        let held = &self.bytes[self.given..];
        let count = held.len().min(buf.len());
        buf[..count].copy_from_slice(&held[..count]);
        self.given += count;
        if self.given == self.bytes.len() {
            self.clear();
        }
        count
    }
}
