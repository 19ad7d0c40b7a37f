//! Keys in the order of a number that their requests have: a search for a number doesn't walk. Most requests come with
//! a number above all others, and end first of all: a search looks at both ends before it halves what is between.

ghost use Rattle.std.specs.Prelude.{◌≡◌, ◌==◌, ◌<◌, ◌≤◌, ◌+◌, ◌++◌, ℕ, true, List, [], ◌∷◌, length, map, remove, slice_get, Some, option_map};
ghost use Rattle.std.specs.List.{find, position};
ghost use Rattle.std.specs.List.Sorted.{IsNonDecreasingBy};
ghost use Rattle.std.specs.Option.{option_cmp};
ghost use Rattle.std.specs.Ordering.{nat_cmp};
ghost use Rattle.unlink_race.specs.declared.live.Live.{Live};
ghost use Rattle.urb_arena.specs.Distinct.{Distinct};
ghost use Rattle.unlink_race.specs.Inner.Indexed.{number_by, any_by, found_by, number_at, Before, Behind, Reads, Stand, IsOrderOf};

use crate::keys::Keys;
use crate::live::Live;
use std::cmp::Ordering;
use urb_arena::{Arena, Key};
use usbip_urb::MAX_LIVE;

/// What requests are found by.
#[derive(Clone, Copy)]
pub enum By {
    /// The submit's seqnum.
    Seqnum,
    /// The id of the packet whose answer ends a wire or route request.
    Id,
}

impl By {
    fn of(self, live: &Live) -> u64
        ensures { result ≡ number_by self live.now }
    {
        match self {
            By::Seqnum => u64::from(live.seqnum),
            By::Id => live.id,
        }
    }
}

/// The number of a key's request.
fn number_of(arena: &Arena<(u64, Live)>, key: Key, by: By) -> Option<u64>
    ensures { result ≡ number_at by arena.now.lanes key }
{
    Some(by.of(&arena.get(key)?.1))
}

/// How the number of a key's request compares to this one.
fn compared(arena: &Arena<(u64, Live)>, key: Key, by: By, number: u64) -> Ordering
    ensures { result ≡ option_cmp nat_cmp (number_at by arena.now.lanes key) (Some number) }
{
    number_of(arena, key, by).cmp(&Some(number))
}

/// Where the first of this number stands, or would: those before it have lesser numbers, and those from it on don't.
fn place_before(arena: &Arena<(u64, Live)>, keys: &[Key], by: By, number: u64) -> usize
    ensures bound { result ≤ length keys.now }
    ensures parted { (pairs : List (ℕ × ℕ)) → keys.now ≡ map (λ p. p.1) pairs → Reads by arena.now.lanes pairs → IsNonDecreasingBy (λ p. p.0) pairs → Before pairs result number × Behind pairs result number }
{
    if keys.is_empty() || !compared(arena, keys[0], by, number).is_lt() {
        return 0;
    }
    if compared(arena, keys[keys.len() - 1], by, number).is_lt() {
        return keys.len();
    }
    keys.partition_point(|key| compared(arena, *key, by, number).is_lt())
}

/// Where one more of this number comes: those before it have no greater numbers, and those from it on have.
fn place_behind(arena: &Arena<(u64, Live)>, keys: &[Key], by: By, number: u64) -> usize
    ensures bound { result ≤ length keys.now }
    ensures parted { (pairs : List (ℕ × ℕ)) → keys.now ≡ map (λ p. p.1) pairs → Reads by arena.now.lanes pairs → IsNonDecreasingBy (λ p. p.0) pairs → Before pairs result (number + 1) × Behind pairs result (number + 1) }
{
    if keys.is_empty() || compared(arena, keys[keys.len() - 1], by, number).is_le() {
        return keys.len();
    }
    keys.partition_point(|key| compared(arena, *key, by, number).is_le())
}

/// From where on a key of this number is looked for: those before have lesser numbers. Most requests end first of all.
fn start_of(arena: &Arena<(u64, Live)>, keys: &[Key], by: By, key: Key, number: u64) -> usize
    ensures bound { result ≤ length keys.now }
    ensures before { (pairs : List (ℕ × ℕ)) → keys.now ≡ map (λ p. p.1) pairs → Reads by arena.now.lanes pairs → IsNonDecreasingBy (λ p. p.0) pairs → Before pairs result number }
{
    if keys.first() == Some(&key) {
        0
    } else {
        place_before(arena, keys, by, number)
    }
}

/// Where a key stands.
fn place_of(keys: &[Key], key: Key) -> Option<usize>
    ensures { result ≡ position (λ k. k == key) keys.now }
{
    keys.iter().position(|held| *held == key)
}

/// The key of the first request of this number.
pub fn first(arena: &Arena<(u64, Live)>, keys: &[Key], by: By, number: u64) -> Option<Key>
    ensures { (requests : List (ℕ × Live)) → Stand arena.now.lanes requests → IsOrderOf by requests keys.now → result ≡ option_map (λ (r : ℕ × Live). r.0) (find (λ (r : ℕ × Live). found_by by number r.1) requests) }
{
    let key = *keys.get(place_before(arena, keys, by, number))?;
    if compared(arena, key, by, number).is_eq() {
        Some(key)
    } else {
        None
    }
}

/// Puts the key of a request behind those that have its number.
pub fn put(arena: &Arena<(u64, Live)>, keys: &mut Keys, by: By, key: Key, live: &Live)
    requires { length keys.old < MAX_LIVE }
    ensures { (requests : List (ℕ × Live)) → Stand arena.now.lanes requests → IsOrderOf by requests keys.old → any_by by live.now ≡ true → IsOrderOf by (requests ++ (key, live.now) ∷ []) keys.new }
{
    let place = place_behind(arena, keys, by, by.of(live));
    keys.insert(place, key);
}

/// Takes the key of a request out.
pub fn take(arena: &Arena<(u64, Live)>, keys: &mut Keys, by: By, key: Key, live: &Live)
    requires { (requests : List (ℕ × Live)) × (place : ℕ) × Stand arena.now.lanes requests × IsOrderOf by requests keys.old × (any_by by live.now ≡ true) × (slice_get requests place ≡ Some (key, live.now)) }
    ensures { (requests : List (ℕ × Live)) (place : ℕ) → Stand arena.now.lanes requests → IsOrderOf by requests keys.old → any_by by live.now ≡ true → slice_get requests place ≡ Some (key, live.now) → Distinct (λ (r : ℕ × Live). r.0) requests → IsOrderOf by (remove requests place) keys.new }
{
    let start = start_of(arena, keys, by, key, by.of(live));
    let behind = place_of(&keys[start..], key);
    keys.remove(start + behind.unwrap());
}
