//! Keys in a list, most of which come last and leave first: no other is moved then.

ghost use Rattle.std.specs.Prelude.{◌≡◌, ◌<◌, ◌≤◌, ◌+◌, ◌-◌, [], ◌∷◌, ◌++◌, length, drop, get_or, insert, remove};
ghost use Rattle.std.specs.List.{copy_within};
ghost use Rattle.arrayvec.specs.ArrayVec.{array_vec_len};

use arrayvec::ArrayVec;
use std::marker::Model;
use std::ops::DerefSlice;
use urb_arena::Key;
use usbip_urb::MAX_LIVE;

// 512 more than there are keys at most: between two moves of all keys, no fewer come than that.
const ROOM: usize = MAX_LIVE + 512;

/// At most 4,096 keys; contracts see their list.
#[derive(Drop)]
pub struct Keys {
    // those before `front` have left
    items: ArrayVec<Key, ROOM>,
    front: usize,
}

impl Model for Keys {
    ghost use Rattle.std.specs.Prelude.{ℕ, List, drop, length, ◌≤◌};

    ghost Value = { List ℕ };

    ghost view = { λ keys. drop keys.front keys.items.items };

    ghost invariant = { λ keys. keys.front ≤ length keys.items.items };
}

/// Copies the keys from `start` up to `end` to the place `to`.
fn copy(items: &mut ArrayVec<Key, ROOM>, start: usize, end: usize, to: usize)
    requires order { start ≤ end }
    requires inside { end ≤ array_vec_len items.old }
    requires room { to + (end - start) ≤ array_vec_len items.old }
    ensures { items.new.items ≡ copy_within items.old.items start end to }
{
    items.as_mut_slice().copy_within(start..end, to);
}

/// Puts a key at a place; those from there on move by one.
fn put_at(items: &mut ArrayVec<Key, ROOM>, at: usize, key: Key)
    requires place { at ≤ array_vec_len items.old }
    requires room { array_vec_len items.old < ROOM }
    ensures { items.new.items ≡ insert items.old.items at key }
{
    let len = items.len();
    items.push(key);
    if at < len {
        copy(items, at, len, at + 1);
        items[at] = key;
    }
}

/// Takes the key at a place out; those behind it move by one.
fn take_at(items: &mut ArrayVec<Key, ROOM>, at: usize)
    requires { at < array_vec_len items.old }
    ensures { items.new.items ≡ remove items.old.items at }
{
    let len = items.len();
    copy(items, at + 1, len, at);
    items.pop();
}

/// Drops those before `front`.
fn drop_left(items: &mut ArrayVec<Key, ROOM>, front: usize)
    requires { front ≤ array_vec_len items.old }
    ensures { items.new.items ≡ drop front items.old.items }
{
    let len = items.len();
    copy(items, front, len, 0);
    items.truncate(len - front);
}

impl DerefSlice for Keys {
    type Elem = Key;

    ghost deref_gives = { λ keys slice. slice ≡ keys };

    fn deref(&self) -> &[Key] {
        &self.items[self.front..]
    }
}

impl Keys {
    /// No keys.
    pub fn new() -> Self
        ensures { result ≡ [] }
    {
        Keys {
            items: ArrayVec::new(),
            front: 0,
        }
    }

    /// How many there are.
    pub fn len(&self) -> usize
        ensures { result ≡ length self.now }
    {
        self.items.len() - self.front
    }

    /// Puts a key at a place; those from there on move by one.
    pub fn insert(&mut self, place: usize, key: Key)
        requires place { place ≤ length self.old }
        requires room { length self.old < MAX_LIVE }
        ensures { self.new ≡ insert self.old place key }
    {
        if self.items.len() == ROOM {
            drop_left(&mut self.items, self.front);
            self.front = 0;
        }
        put_at(&mut self.items, self.front + place, key);
    }

    /// Puts a key behind the others.
    pub fn push(&mut self, key: Key)
        requires { length self.old < MAX_LIVE }
        ensures { self.new ≡ self.old ++ key ∷ [] }
    {
        self.insert(self.len(), key);
    }

    /// Takes the key at a place out: those before it move by one, or those behind it, whichever are fewer.
    pub fn remove(&mut self, place: usize) -> Key
        requires { place < length self.old }
        ensures value { result ≡ get_or self.old place result }
        ensures rest { self.new ≡ remove self.old place }
    {
        let len = self.items.len();
        let at = self.front + place;
        let behind = len - at - 1;
        let key = self.items[at];
        if place < behind {
            copy(&mut self.items, self.front, at, self.front + 1);
            self.front += 1;
        } else {
            take_at(&mut self.items, at);
        }
        key
    }
}
