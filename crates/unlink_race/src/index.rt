//! Where the requests in a table are found by their seqnums and ids, so that no search walks them.

ghost use Rattle.std.specs.Prelude.{◌≡◌, ◌<◌, ℕ, List, [], ◌∷◌, ◌++◌, length, remove, slice_get, Some, option_map, if◌then◌else◌};
ghost use Rattle.std.specs.List.{find, list_any, zip};
ghost use Rattle.unlink_race.specs.declared.live.Live.{Live};
ghost use Rattle.unlink_race.specs.Searches.{changes};
ghost use Rattle.urb_arena.specs.Distinct.{Distinct};
ghost use Rattle.unlink_race.specs.Inner.Indexed.{Stand, IsIndexed, IsOrderOf, found_by};

use crate::by_number::{By, first, put, take};
use crate::keys::Keys;
use crate::live::Live;
use urb_arena::{Arena, Key};
use usbip_urb::MAX_LIVE;

/// The keys of the requests in a table in the order of their seqnums, and those of wire and route requests in that of
/// their ids; and how many requests change the device's interfaces. It holds no request, and of one that has ended
/// nothing. What it needs of a request it reads in the arena.
#[derive(Drop)]
pub struct Index {
    seqnums: Keys,
    // of the wire and route requests
    held: Keys,
    changes: usize,
}

/// Puts the key of a request among those that are found by their ids, where it is.
fn put_id(arena: &Arena<(u64, Live)>, held: &mut Keys, key: Key, live: &Live)
    requires { length held.old < MAX_LIVE }
    ensures { (requests : List (ℕ × Live)) → Stand arena.now.lanes requests → IsOrderOf By.Id requests held.old → IsOrderOf By.Id (requests ++ (key, live.now) ∷ []) held.new }
{
    if !live.kind.is_stream() {
        put(arena, held, By::Id, key, live);
    }
}

/// Takes it out, where it is among them.
fn take_id(arena: &Arena<(u64, Live)>, held: &mut Keys, key: Key, live: &Live)
    requires { (requests : List (ℕ × Live)) × (place : ℕ) × Stand arena.now.lanes requests × IsOrderOf By.Id requests held.old × (slice_get requests place ≡ Some (key, live.now)) }
    ensures { (requests : List (ℕ × Live)) (place : ℕ) → Stand arena.now.lanes requests → IsOrderOf By.Id requests held.old → slice_get requests place ≡ Some (key, live.now) → Distinct (λ (r : ℕ × Live). r.0) requests → IsOrderOf By.Id (remove requests place) held.new }
{
    if !live.kind.is_stream() {
        take(arena, held, By::Id, key, live);
    }
}

/// How many changes it is: one, or none.
fn change_of(live: &Live) -> usize
    ensures { result ≡ (if changes live.now then 1 else 0) }
{
    usize::from(live.kind.is_change())
}

impl Index {
    /// That of no request.
    pub fn new() -> Self
        ensures { IsIndexed [] [] result }
    {
        Index {
            seqnums: Keys::new(),
            held: Keys::new(),
            changes: 0,
        }
    }

    /// The key of the first request that this number finds.
    pub fn first(&self, arena: &Arena<(u64, Live)>, by: By, number: u64) -> Option<Key>
        ensures { (keys : List ℕ) (lives : List Live) → IsIndexed keys lives self.now → Stand arena.now.lanes (zip keys lives) → result ≡ option_map (λ (r : ℕ × Live). r.0) (find (λ (r : ℕ × Live). found_by by number r.1) (zip keys lives)) }
    {
        match by {
            By::Seqnum => first(arena, &self.seqnums, By::Seqnum, number),
            By::Id => first(arena, &self.held, By::Id, number),
        }
    }

    /// Whether a request changes the configuration or an interface.
    pub fn has_change(&self) -> bool
        ensures { (keys : List ℕ) (lives : List Live) → IsIndexed keys lives self.now → result ≡ list_any changes lives }
    {
        self.changes > 0
    }

    /// One more request comes to the others, under this key.
    pub fn note(&mut self, arena: &Arena<(u64, Live)>, key: Key, live: &Live)
        requires { (keys : List ℕ) × (lives : List Live) × (length lives < MAX_LIVE) × IsIndexed keys lives self.old }
        ensures { (keys : List ℕ) (lives : List Live) → IsIndexed keys lives self.old → Stand arena.now.lanes (zip keys lives) → IsIndexed (keys ++ key ∷ []) (lives ++ live.now ∷ []) self.new }
    {
        put(arena, &mut self.seqnums, By::Seqnum, key, live);
        put_id(arena, &mut self.held, key, live);
        self.changes += change_of(live);
    }

    /// The request of this key ends.
    pub fn forget(&mut self, arena: &Arena<(u64, Live)>, key: Key, live: &Live)
        requires { (keys : List ℕ) × (lives : List Live) × (place : ℕ) × (slice_get keys place ≡ Some key) × (slice_get lives place ≡ Some live.now) × Stand arena.now.lanes (zip keys lives) × IsIndexed keys lives self.old }
        ensures { (keys : List ℕ) (lives : List Live) (place : ℕ) → slice_get keys place ≡ Some key → slice_get lives place ≡ Some live.now → Distinct (λ k. k) keys → Stand arena.now.lanes (zip keys lives) → IsIndexed keys lives self.old → IsIndexed (remove keys place) (remove lives place) self.new }
    {
        take(arena, &mut self.seqnums, By::Seqnum, key, live);
        take_id(arena, &mut self.held, key, live);
        self.changes -= change_of(live);
    }
}
