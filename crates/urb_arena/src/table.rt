//! The table: its block, and the rings of its lanes and of the free cells.
ghost use Rattle.std.specs.Prelude.{◌≡◌, ◌<◌, ◌≤◌, ◌+◌, ◌++◌, ◌∷◌, [], length, map, get_or, slice_set, replicate, IfOk, IfErr, IsTrue, ◌↔◌, MatchOption, None, Some, option_copied};
ghost use Rattle.urb_arena.specs.Inner.Turns.{ring_of, start};
ghost use Rattle.urb_arena.specs.Lanes.{find_in, without, first_key, key_after_in, count, ByKey};
ghost use Rattle.urb_arena.specs.Inner.Tables.{IsTable, lanes_of};
ghost use Rattle.urb_arena.specs.declared.arena.TheConstants.{MOST};

use crate::cells::{Base, Block, Cell, Deed, Links, allocate, deallocate};
use std::alloc::{AllocError, Global};
use std_alloc::room::may_hold;

/// A block of cells: the ends of the lanes' rings, then that of the free cells', and behind these as many cells as
/// there is room for values. A value's place in the block is its key.
pub struct Table<T> {
    pub(crate) base: Base<T>,
    pub(crate) block: Block<T>,
    pub(crate) deed: Deed<T, Global>,
    pub(crate) alloc: Global,
    pub(crate) capacity: usize,
    pub(crate) lanes: usize,
    pub(crate) len: usize,
}

/// The links of a cell in a new table.
fn first_links(at: usize, lanes: usize, total: usize) -> Links
    requires { (at < total) × (lanes < total) × (total ≤ 131073) }
    ensures { result ≡ start lanes total at }
{
    if at < lanes {
        let end = at as u32;
        return Links {
            prev: end,
            next: end,
            ring: end,
        };
    }
    let prev = if at == lanes { total - 1 } else { at - 1 };
    let next = if at + 1 == total { lanes } else { at + 1 };
    Links {
        prev: prev as u32,
        next: next as u32,
        ring: lanes as u32,
    }
}

impl<T> Table<T> {
    /// One of so many lanes, all empty.
    pub(crate) fn new(alloc: Global, capacity: usize, lanes: usize) -> Result<Table<T>, AllocError>
        requires { (capacity ≤ MOST) × (lanes ≤ MOST) }
        ensures { IfOk result (λ t. IsTable t × (t.capacity ≡ capacity) × (lanes_of t ≡ replicate lanes [])) }
    {
        let total = lanes + 1 + capacity;
        if !may_hold::<Cell<T>>(total) {
            return Err(AllocError);
        }
        let (base, mut block, deed) = allocate(&alloc, total)?;
        let mut at = 0;
        while at < total {
            block.set_links(base, at, first_links(at, lanes, total));
            at += 1;
        }
        Ok(Table {
            base,
            block,
            deed,
            alloc,
            capacity,
            lanes,
            len: 0,
        })
    }

    /// Whether the cell at a place stands in a lane.
    pub(crate) fn is_live(&self, place: u32) -> bool
        requires { IsTable self.now }
        ensures { IsTrue result ↔ ((self.now.lanes < place) × (place < length self.now.block.links) × (ring_of self.now.block.links place < self.now.lanes)) }
    {
        let at = place as usize;
        at > self.lanes
            && at <= self.lanes + self.capacity
            && (self.block.link(self.base, place).ring as usize) < self.lanes
    }

    /// How many values there are.
    pub(crate) fn len(&self) -> usize
        requires { IsTable self.now }
        ensures len { result ≡ count (lanes_of self.now) }
        ensures within { result ≤ self.now.capacity }
    {
        self.len
    }

    /// A law: each value stands under a key of its own.
    pub(crate) fn by_key(&self)
        requires { IsTable self.now }
        ensures { ByKey (lanes_of self.now) }
    {}

    /// The place of the first value of a lane.
    pub(crate) fn front(&self, lane: usize) -> Option<u32>
        requires { IsTable self.now × (lane < self.now.lanes) }
        ensures { MatchOption result (first_key (get_or (lanes_of self.now) lane []) ≡ None) (λ k. first_key (get_or (lanes_of self.now) lane []) ≡ Some k) }
    {
        let place = self.block.link(self.base, lane as u32).next;
        if place as usize <= self.lanes {
            None
        } else {
            Some(place)
        }
    }

    /// The place of the value behind the one at this place, in its lane.
    pub(crate) fn next(&self, place: u32) -> Option<u32>
        requires { IsTable self.now }
        ensures { MatchOption result (key_after_in place (lanes_of self.now) ≡ None) (λ k. key_after_in place (lanes_of self.now) ≡ Some k) }
    {
        if !self.is_live(place) {
            return None;
        }
        let onward = self.block.link(self.base, place).next;
        if onward as usize <= self.lanes {
            None
        } else {
            Some(onward)
        }
    }

    /// The value at a place.
    pub(crate) fn get(&self, place: u32) -> Option<&T>
        requires { IsTable self.now }
        ensures { option_copied result ≡ find_in place (lanes_of self.now) }
    {
        if !self.is_live(place) {
            return None;
        }
        Some(self.block.lend(self.base, place as usize))
    }

    /// Puts a value at the back of a lane, in a free cell, whose place it gives. Where none is free it hands it back.
    pub(crate) fn push_back(&mut self, lane: usize, value: T) -> Result<u32, T>
        requires { IsTable self.old × (lane < self.old.lanes) }
        ensures table { IsTable self.new × (self.new.lanes ≡ self.old.lanes) × (self.new.capacity ≡ self.old.capacity) }
        ensures ok { IfOk result (λ k. (count (lanes_of self.old) < self.old.capacity) × (find_in k (lanes_of self.old) ≡ None) × (lanes_of self.new ≡ slice_set (lanes_of self.old) lane (get_or (lanes_of self.old) lane [] ++ (k, value) ∷ []))) }
        ensures err { IfErr result (λ v. (v ≡ value) × (count (lanes_of self.old) ≡ self.old.capacity) × (self.new ≡ self.old)) }
    {
        // The cell freed last, so that no more are used than there were values at once.
        let place = self.block.link(self.base, self.lanes as u32).prev;
        if place as usize == self.lanes {
            return Err(value);
        }
        self.block.put(self.base, place as usize, value);
        self.block.shift(self.base, place, lane as u32);
        self.len += 1;
        Ok(place)
    }

    /// Takes the value at a place out, and frees its cell.
    pub(crate) fn remove(&mut self, place: u32) -> Option<T>
        requires { IsTable self.old }
        ensures table { IsTable self.new × (self.new.lanes ≡ self.old.lanes) × (self.new.capacity ≡ self.old.capacity) }
        ensures value { result ≡ find_in place (lanes_of self.old) }
        ensures lanes { lanes_of self.new ≡ map (without place) (lanes_of self.old) }
        ensures len { MatchOption result (self.new ≡ self.old) (λ _. self.new.len + 1 ≡ self.old.len) }
    {
        if !self.is_live(place) {
            return None;
        }
        let value = self.block.take(self.base, place as usize);
        self.block.shift(self.base, place, self.lanes as u32);
        self.len -= 1;
        Some(value)
    }

    /// Gives the block back, once no lane has a value.
    pub(crate) fn give_back(self)
        requires { IsTable self × (count (lanes_of self) ≡ 0) }
    {
        let Table {
            base,
            block,
            deed,
            alloc,
            capacity,
            lanes,
            len: _,
        } = self;
        deallocate(&alloc, base, lanes + 1 + capacity, block, deed);
    }
}

impl<T: Drop> Table<T> {
    /// Takes each value out, lane by lane, and drops it.
    pub(crate) fn clear(&mut self)
        requires { IsTable self.old }
        ensures { IsTable self.new × (count (lanes_of self.new) ≡ 0) × (self.new.lanes ≡ self.old.lanes) × (self.new.capacity ≡ self.old.capacity) }
    {
        let mut lane = 0;
        while lane < self.lanes {
            match self.front(lane) {
                Some(place) => {
                    self.remove(place);
                }
                None => {
                    lane += 1;
                }
            }
        }
    }
}
