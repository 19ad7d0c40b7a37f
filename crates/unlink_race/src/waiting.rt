//! Requests that wait for a stream, one after another.

ghost use Rattle.std.specs.Prelude.{◌≡◌, ◌<◌, [], length, map, get_or};
ghost use Rattle.std.specs.Iterator.{YieldsFirstRef, item_count};
ghost use Rattle.urb_arena.specs.Lanes.{ByKey};
ghost use Rattle.unlink_race.specs.Searches.{ended_by};
ghost use Rattle.unlink_race.specs.Inner.Earliest.{passing};

use crate::live::{Live, StreamEnd};
use crate::search::first_from;
use std::marker::Model;
use urb_arena::{Arena, Key};

/// Requests that wait for packets of one stream, from the earliest on; contracts see it as the list of those that are
/// left.
#[derive(Drop)]
pub struct Waiting<'a> {
    arena: &'a Arena<(u64, Live)>,
    // where the walk of their lane goes on
    next: Option<Key>,
    // how their stream ends
    end: StreamEnd,
}

impl<'a> Model for Waiting<'a> {
    ghost use Rattle.std.specs.Prelude.{List, map};
    ghost use Rattle.urb_arena.specs.Lanes.{ByKey};
    ghost use Rattle.unlink_race.specs.declared.live.Live.{Live};
    ghost use Rattle.unlink_race.specs.Searches.{ended_by};
    ghost use Rattle.unlink_race.specs.Inner.Rest.{Stands, lives_from};

    ghost Value = { List Live };

    ghost view = { λ it. lives_from (ended_by it.end) it.next it.arena.now.lanes };

    ghost invariant = { λ it. ByKey it.arena.now.lanes × Stands it.next it.arena.now.lanes };
}

impl<'a> Waiting<'a> {
    /// Those in a lane whose stream ends so.
    pub(crate) fn new(arena: &'a Arena<(u64, Live)>, lane: usize, end: StreamEnd) -> Self
        requires lane { lane < length arena.now.lanes }
        requires keys { ByKey arena.now.lanes }
        ensures { result ≡ map (λ entry. entry.1) (passing (ended_by end) (map (λ p. p.1) (get_or arena.now.lanes lane []))) }
    {
        Waiting {
            arena,
            next: arena.front(lane),
            end,
        }
    }

    /// None of them.
    pub(crate) fn none(arena: &'a Arena<(u64, Live)>) -> Self
        requires { ByKey arena.now.lanes }
        ensures { result ≡ [] }
    {
        Waiting {
            arena,
            next: None,
            end: StreamEnd::ClientGone,
        }
    }
}

impl<'a> Iterator for Waiting<'a> {
    type Item = &'a Live;

    ghost next_gives = { YieldsFirstRef (λ rest. rest) };

    ghost remaining = { item_count (λ rest. rest) };

    fn next(&mut self) -> Option<&'a Live> {
        let key = first_from(self.arena, self.next, &self.end)?;
        self.next = self.arena.next(key);
        Some(&self.arena.get(key).unwrap().1)
    }
}
