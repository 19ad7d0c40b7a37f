//! Searches of the requests in their lanes, by the ranks that say when they were accepted.

ghost use Rattle.std.specs.Prelude.{◌≡◌, ◌<◌, [], length, map, get_or};
ghost use Rattle.std.specs.Option.{option_map};
ghost use Rattle.urb_arena.specs.Lanes.{find_in, ByKey};
ghost use Rattle.unlink_race.specs.Searches.{ended_by};
ghost use Rattle.unlink_race.specs.Inner.Earliest.{earliest};
ghost use Rattle.unlink_race.specs.Inner.Rest.{rest_at, Stands, key_of_first};

use crate::live::{Live, StreamEnd};
use urb_arena::{Arena, Key};

/// The rank of the request of a key.
pub fn rank_of(arena: &Arena<(u64, Live)>, key: Key) -> Option<u64>
    ensures { result ≡ option_map (λ entry. entry.0) (find_in key arena.now.lanes) }
{
    Some(arena.get(key)?.0)
}

/// The key of the first request that waits for packets of a stream that ends so, from that of a key on in its lane.
pub fn first_from(arena: &Arena<(u64, Live)>, start: Option<Key>, end: &StreamEnd) -> Option<Key>
    requires keys { ByKey arena.now.lanes }
    requires stands { Stands start arena.now.lanes }
    ensures { result ≡ key_of_first (ended_by end.now) (rest_at start arena.now.lanes) }
{
    let mut next = start;
    while let Some(key) = next {
        let entry = arena.get(key).unwrap();
        if entry.1.kind.ends_with(end) {
            return Some(key);
        }
        next = arena.next(key);
    }
    None
}

/// The rank of the earliest request in a lane that waits for packets of a stream that ends so.
pub fn earliest_in_lane(arena: &Arena<(u64, Live)>, lane: usize, end: &StreamEnd) -> Option<u64>
    requires lane { lane < length arena.now.lanes }
    requires keys { ByKey arena.now.lanes }
    ensures { result ≡ earliest (ended_by end.now) (map (λ p. p.1) (get_or arena.now.lanes lane [])) }
{
    rank_of(arena, first_from(arena, arena.front(lane), end)?)
}
