//! The table behind `Lives`: the requests in an arena, each in the lane of its endpoint, where those that wait for a
//! stream are looked for, and beside it their keys in order of acceptance. By its seqnum or its id a request is found
//! by an index, which says its key.

ghost use Rattle.std.specs.Prelude.{◌≡◌, ◌==◌, ◌<◌, ◌≤◌, ◌+◌, ◌^◌, ℕ, not, true, List, [], ◌∷◌, ◌++◌, length, filter, remove, replicate, get_or, slice_get, slice_set, option_map, Some};
ghost use Rattle.std.specs.List.{find, position, list_any};
ghost use Rattle.urb_arena.specs.Lanes.{find_in};
ghost use Rattle.urb_arena.specs.ArenaView.{arena_view};
ghost use Rattle.usb_base.specs.declared.endpoint.TheConstants.{ENDPOINTS};
ghost use Rattle.unlink_race.specs.declared.live.Live.{Live};
ghost use Rattle.unlink_race.specs.Firsts.{without_first};
ghost use Rattle.unlink_race.specs.Inner.Indexed.{found_by};
ghost use Rattle.unlink_race.specs.Inner.Listed.{IsKeyed};
ghost use Rattle.unlink_race.specs.Inner.Sound.{entry_of, ranks_of, Rises, HasDealt};
ghost use Rattle.unlink_race.specs.Unlinking.{unlinked_by};
ghost use Rattle.unlink_race.specs.Searches.{has_number, has_id, waits_for, ended_by, changes};

use crate::by_number::By;
use crate::index::Index;
use crate::iter::Iter;
use crate::keys::Keys;
use crate::live::{Live, StreamEnd};
use crate::ranked::{mark, set_rank};
use crate::search::{earliest_in_lane, rank_of};
use crate::waiting::Waiting;
use std::marker::Model;
use urb_arena::{Arena, Key};
use usb_base::EpAddr;
use usbip_urb::MAX_LIVE;

/// Requests in order of acceptance, at most 4,096; contracts see it as their list. No call takes memory: the requests
/// stand in the arena alone, and what finds them lies in the table itself.
#[derive(Drop)]
pub struct Table {
    // a lane for each endpoint, at its index, and in the first what went by a route, too: each request with its
    // rank, which rises in order of acceptance
    arena: Arena<(u64, Live)>,
    // above all ranks
    next: u64,
    // in order of acceptance
    keys: Keys,
    index: Index,
}

impl Model for Table {
    ghost use Rattle.std.specs.Prelude.{List};
    ghost use Rattle.unlink_race.specs.declared.live.Live.{Live};
    ghost use Rattle.unlink_race.specs.Inner.Sound.{lives_of, ranks_of, Rises, IsSound};
    ghost use Rattle.unlink_race.specs.Inner.Indexed.{IsIndexed};

    ghost Value = { List Live };

    ghost view = { λ t. lives_of t.arena t.keys };

    ghost invariant = { λ t. IsSound t.arena t.keys × IsIndexed t.keys (lives_of t.arena t.keys) t.index × Rises 0 (ranks_of t.arena t.keys) t.next };
}

/// Whether it is the first's rank: most requests end first of all.
fn is_first(arena: &Arena<(u64, Live)>, keys: &[Key], rank: u64) -> bool
    ensures { result ≡ true → (0 < length keys.now) × (option_map (λ (entry : ℕ × Live). entry.0) (find_in (get_or keys.now 0 0) arena.now.lanes) ≡ Some rank) }
{
    match keys.first() {
        Some(key) => rank_of(arena, *key) == Some(rank),
        None => false,
    }
}

/// The place of the key whose request has this rank: the ranks rise with the keys.
fn place_ranked(arena: &Arena<(u64, Live)>, keys: &[Key], rank: u64) -> Option<usize>
    ensures { (high : ℕ) → IsKeyed (λ k. k) (entry_of arena.now) keys.now → Rises 0 (ranks_of arena.now keys.now) high → result ≡ position (λ n. n == rank) (ranks_of arena.now keys.now) }
{
    if is_first(arena, keys, rank) {
        return Some(0);
    }
    let found = keys.binary_search_by_key(&Some(rank), |key| rank_of(arena, *key));
    found.ok()
}

/// The place of a key: that of its request's rank, for the ranks rise with the keys. Most requests end first of all, and
/// of the first key nothing is read.
fn place_of_key(arena: &Arena<(u64, Live)>, keys: &[Key], key: Key) -> Option<usize>
    ensures { (high : ℕ) (entry : ℕ × Live) → IsKeyed (λ k. k) (entry_of arena.now) keys.now → Rises 0 (ranks_of arena.now keys.now) high → find_in key arena.now.lanes ≡ Some entry → result ≡ position (λ n. n == entry.0) (ranks_of arena.now keys.now) }
{
    match keys.first() {
        Some(first) if *first == key => Some(0),
        _ => place_ranked(arena, keys, rank_of(arena, key)?),
    }
}

/// Ranks the requests anew from 0, in their order.
fn deal(arena: &mut Arena<(u64, Live)>, keys: &[Key])
    requires { IsKeyed (λ k. k) (entry_of arena.old) keys.now × (length keys.now ≤ MAX_LIVE) }
    ensures dealt { HasDealt arena.old arena.new keys.now }
    ensures ranks { Rises 0 (ranks_of arena.new keys.now) (length keys.now) }
{
    for (place, key) in keys.iter().enumerate() {
        set_rank(arena, *key, place as u64);
    }
}

/// The rank of one that comes behind the others. They are ranked anew before it would be the greatest there is.
fn next_rank(arena: &mut Arena<(u64, Live)>, keys: &[Key], next: u64) -> u64
    requires kept { IsKeyed (λ k. k) (entry_of arena.old) keys.now × (length keys.now ≤ MAX_LIVE) }
    requires rises { Rises 0 (ranks_of arena.old keys.now) next }
    ensures bound { result + 1 < 2 ^ 64 }
    ensures dealt { HasDealt arena.old arena.new keys.now }
    ensures rises { Rises 0 (ranks_of arena.new keys.now) result }
{
    if next < u64::MAX {
        return next;
    }
    deal(arena, keys);
    keys.len() as u64
}

impl Table {
    /// The empty table over an arena.
    pub fn over(arena: Arena<(u64, Live)>) -> Self
        requires { arena ≡ arena_view (replicate ENDPOINTS []) MAX_LIVE }
        ensures { result ≡ [] }
    {
        Table {
            arena,
            next: 0,
            keys: Keys::new(),
            index: Index::new(),
        }
    }

    /// How many requests there are.
    pub fn len(&self) -> usize
        ensures len { result ≡ length self.now }
        ensures bound { result ≤ MAX_LIVE }
    {
        self.keys.len()
    }

    /// Whether a request has this seqnum.
    pub fn has_seqnum(&self, seqnum: u32) -> bool
        ensures { result ≡ list_any (has_number seqnum) self.now }
    {
        self.index
            .first(&self.arena, By::Seqnum, u64::from(seqnum))
            .is_some()
    }

    /// Whether a wire or route request has this id.
    pub fn has_id(&self, id: u64) -> bool
        ensures { result ≡ list_any (has_id id) self.now }
    {
        self.index.first(&self.arena, By::Id, id).is_some()
    }

    /// Where the first request stands that this number finds.
    fn place_found(&self, by: By, number: u64) -> Option<usize>
        ensures { result ≡ position (found_by by number) self.now }
    {
        let key = self.index.first(&self.arena, by, number)?;
        place_of_key(&self.arena, &self.keys, key)
    }

    /// Where the first request with this seqnum stands.
    pub fn place_of_seqnum(&self, seqnum: u32) -> Option<usize>
        ensures { result ≡ position (has_number seqnum) self.now }
    {
        self.place_found(By::Seqnum, u64::from(seqnum))
    }

    /// Where the first wire or route request with this id stands.
    pub fn place_of_id(&self, id: u64) -> Option<usize>
        ensures { result ≡ position (has_id id) self.now }
    {
        self.place_found(By::Id, id)
    }

    /// Where the first request stands that waits for packets of this endpoint's stream.
    fn place_waiting(&self, ep: EpAddr) -> Option<usize>
        ensures { result ≡ position (waits_for ep) self.now }
    {
        // This endpoint's stream ends so, and no other.
        let end = StreamEnd::Told(ep.byte());
        let rank = earliest_in_lane(&self.arena, ep.index(), &end)?;
        place_ranked(&self.arena, &self.keys, rank)
    }

    /// The requests that wait for packets of this endpoint's stream, from the earliest on.
    pub fn waiting(&self, ep: EpAddr) -> Waiting<'_>
        ensures waits { result ≡ filter (waits_for ep) self.now }
        ensures bound { length result ≤ MAX_LIVE }
    {
        Waiting::new(&self.arena, ep.index(), StreamEnd::Told(ep.byte()))
    }

    /// None of them.
    pub fn none_waiting(&self) -> Waiting<'_>
        ensures { result ≡ [] }
    {
        Waiting::none(&self.arena)
    }

    /// Whether a request changes the configuration or an interface.
    pub fn has_change(&self) -> bool
        ensures { result ≡ list_any changes self.now }
    {
        self.index.has_change()
    }

    /// The request at this place.
    pub fn at(&self, place: usize) -> &Live
        requires { place < length self.now }
        ensures { slice_get self.now place ≡ Some result.now }
    {
        &self.arena.get(self.keys[place]).unwrap().1
    }

    /// The requests, in order of acceptance.
    pub fn iter(&self) -> Iter<'_>
        ensures { result ≡ self.now }
    {
        Iter::new(&self.arena, &self.keys)
    }

    /// None of them.
    pub fn none(&self) -> Iter<'_>
        ensures { result ≡ [] }
    {
        Iter::new(&self.arena, &[])
    }

    /// Takes out the request at this place; those behind it move up.
    pub fn remove(&mut self, place: usize) -> Live
        requires { place < length self.old }
        ensures live { slice_get self.old place ≡ Some result }
        ensures rest { self.new ≡ remove self.old place }
    {
        let key = self.keys.remove(place);
        let entry = self.arena.get(key).unwrap();
        self.index.forget(&self.arena, key, &entry.1);
        self.arena.remove(key).unwrap().1
    }

    /// Puts a request behind the others.
    pub fn push(&mut self, live: Live)
        requires { length self.old < MAX_LIVE }
        ensures { self.new ≡ self.old ++ live ∷ [] }
    {
        let rank = next_rank(&mut self.arena, &self.keys, self.next);
        self.next = rank + 1;
        let pushed = self.arena.push_back(live.kind.lane(), (rank, live));
        let key = pushed.ok().unwrap();
        let entry = self.arena.get(key).unwrap();
        self.index.note(&self.arena, key, &entry.1);
        self.keys.push(key);
    }

    /// Marks the request at this place as asked back by the unlink with this number.
    pub fn mark(&mut self, place: usize, by: u32)
        requires { place < length self.old }
        ensures { (live : Live) → slice_get self.old place ≡ Some live → self.new ≡ slice_set self.old place (unlinked_by by live) }
    {
        let key = self.keys[place];
        mark(&mut self.arena, key, by);
    }

    /// Takes out the first request that waits for packets of this endpoint's stream.
    pub fn take_waiting(&mut self, ep: EpAddr) -> Option<Live>
        ensures found { result ≡ find (waits_for ep) self.old }
        ensures rest { self.new ≡ without_first (waits_for ep) self.old }
    {
        let place = self.place_waiting(ep)?;
        Some(self.remove(place))
    }

    /// Drops the requests whose stream ends so, from the last to the first: what is moved up are those that stay.
    pub fn drop_ended(&mut self, end: &StreamEnd)
        ensures { self.new ≡ filter (λ live. not (ended_by end.now live)) self.old }
    {
        for place in (0..self.len()).rev() {
            if self.at(place).kind.ends_with(end) {
                self.remove(place);
            }
        }
    }

    /// Drops all requests.
    pub fn clear(&mut self)
        ensures { self.new ≡ [] }
    {
        for place in (0..self.len()).rev() {
            self.remove(place);
        }
    }
}
