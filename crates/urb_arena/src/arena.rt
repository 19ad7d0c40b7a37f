//! The arena.

ghost use Rattle.std.specs.Prelude.{◌≡◌, ◌<◌, ◌≤◌, ◌+◌, ◌++◌, ◌∷◌, [], length, map, get_or, slice_set, replicate, IfOk, IfErr, OnSome, MatchOption, None, Some, option_copied};
ghost use Rattle.std.specs.Option.{option_copied_mut};
ghost use Rattle.std.specs.Borrow.{sem};
ghost use Rattle.urb_arena.specs.Lanes.{find_in, without, first_key, key_after_in, count, ByKey};
ghost use Rattle.urb_arena.specs.ArenaView.{arena_view};
ghost use Rattle.urb_arena.specs.declared.arena.TheConstants.{MOST};

use crate::table::Table;
use std::alloc::Global;
use std::marker::Model;
use usb_base::Memory;

/// Names a value of an arena. The key of a value that was taken out can be that of a later one.
#[derive(Clone, Copy, PartialEq, Eq, Default)]
pub struct Key {
    place: u32,
}

impl Model for Key {
    ghost use Rattle.std.specs.Prelude.{ℕ};

    ghost Value = { ℕ };

    ghost view = { λ k. k.place };

    ghost inverse = { λ n. record { place = n } };
}

/// How many values an arena has room for at most, and how many lanes.
pub const MOST: usize = 65_536;

/// Values in lanes, each lane a list, in one block of memory. Contracts see each lane as its list of keys and values,
/// from the front on, and beside them the capacity. A drop drops each value once.
pub struct Arena<T> {
    table: Table<T>,
}

impl<T> Model for Arena<T> {
    ghost use Rattle.urb_arena.specs.ArenaView.{ArenaView, arena_view, arena_view_code};

    ghost Value = { ArenaView T };

    ghost coded = { arena_view_code T.code };

    ghost use Rattle.urb_arena.specs.Inner.Tables.{IsTable, lanes_of};

    ghost view = { λ a. arena_view (lanes_of a.table) a.table.capacity };

    ghost invariant = { λ a. IsTable a.table };
}

impl<T> Arena<T> {
    ghost use Rattle.urb_arena.specs.ArenaLends.{lends_at};

    /// An arena of so many lanes, all empty, with room for `capacity` values in all lanes together. It makes one
    /// request for memory, and no other call makes any.
    pub fn new(alloc: Global, capacity: usize, lanes: usize) -> Result<Arena<T>, Memory>
        requires { (0 < capacity) × (capacity ≤ MOST) × (0 < lanes) × (lanes ≤ MOST) }
        ensures { IfOk result (λ a. a ≡ arena_view (replicate lanes []) capacity) }
    {
        let table = Table::new(alloc, capacity, lanes)?;
        Ok(Arena { table })
    }

    /// How many values there are, in all lanes together.
    pub fn len(&self) -> usize
        ensures len { result ≡ count self.now.lanes }
        ensures within { result ≤ self.now.capacity }
    {
        self.table.len()
    }

    /// A law: each value stands under a key of its own.
    pub fn by_key(&self)
        ensures { ByKey self.now.lanes }
    {
        self.table.by_key();
    }

    /// Puts a value at the back of a lane, under a key that names no other. A full arena hands it back.
    pub fn push_back(&mut self, lane: usize, value: T) -> Result<Key, T>
        requires { lane < length self.old.lanes }
        ensures ok { IfOk result (λ k. (count self.old.lanes < self.old.capacity) × (find_in k self.old.lanes ≡ None) × (self.new ≡ arena_view (slice_set self.old.lanes lane (get_or self.old.lanes lane [] ++ (k, value) ∷ [])) self.old.capacity)) }
        ensures err { IfErr result (λ v. (v ≡ value) × (count self.old.lanes ≡ self.old.capacity) × (self.new ≡ self.old)) }
    {
        let place = self.table.push_back(lane, value)?;
        Ok(Key { place })
    }

    /// Takes the value of a key out of its lane, wherever it stands.
    pub fn remove(&mut self, key: Key) -> Option<T>
        ensures value { result ≡ find_in key self.old.lanes }
        ensures lanes { self.new ≡ arena_view (map (without key) self.old.lanes) self.old.capacity }
        ensures len { OnSome result (count self.new.lanes + 1 ≡ count self.old.lanes) }
    {
        self.table.remove(key.place)
    }

    /// The first key of a lane.
    pub fn front(&self, lane: usize) -> Option<Key>
        requires { lane < length self.now.lanes }
        ensures { MatchOption result (get_or self.now.lanes lane [] ≡ []) (λ k. first_key (get_or self.now.lanes lane []) ≡ Some k) }
    {
        let place = self.table.front(lane)?;
        Some(Key { place })
    }

    /// The key behind this one in its lane: none behind the last, and none where the key names no value.
    pub fn next(&self, key: Key) -> Option<Key>
        ensures { MatchOption result (key_after_in key self.now.lanes ≡ None) (λ k. key_after_in key self.now.lanes ≡ Some k) }
    {
        let place = self.table.next(key.place)?;
        Some(Key { place })
    }

    /// The value of a key.
    pub fn get(&self, key: Key) -> Option<&T>
        ensures { option_copied result ≡ find_in key self.now.lanes }
    {
        self.table.get(key.place)
    }

    /// The value of a key, to write.
    pub fn get_mut(&mut self, key: Key) -> Option<&mut T>
        ensures* writes_back { sem 𝓛 (lends_at T.row self.entry key result) }
        ensures value { option_copied_mut result ≡ find_in key self.old.lanes }
    {
        if !self.table.is_live(key.place) {
            return None;
        }
        let base = self.table.base;
        Some(self.table.block.lend_mut(base, key.place as usize))
    }
}

impl<T: Drop> Drop for Arena<T> {
    fn drop(mut self) {
        self.table.clear();
        let Arena { table } = self;
        table.give_back();
    }
}
