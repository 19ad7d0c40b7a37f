//! Requests one after another.

ghost use Rattle.std.specs.Prelude.{◌≡◌};
ghost use Rattle.std.specs.Iterator.{YieldsFirstRef, item_count};
ghost use Rattle.unlink_race.specs.Inner.Listed.{IsKeyed};
ghost use Rattle.unlink_race.specs.Inner.Sound.{entry_of, lives_of};

use crate::live::Live;
use std::marker::Model;
use urb_arena::{Arena, Key};

/// Requests in order of acceptance; contracts see it as the list of those that are left.
#[derive(Drop)]
pub struct Iter<'a> {
    arena: &'a Arena<(u64, Live)>,
    keys: &'a [Key],
}

impl<'a> Model for Iter<'a> {
    ghost use Rattle.std.specs.Prelude.{List};
    ghost use Rattle.unlink_race.specs.declared.live.Live.{Live};
    ghost use Rattle.unlink_race.specs.Inner.Listed.{IsKeyed};
    ghost use Rattle.unlink_race.specs.Inner.Sound.{entry_of, lives_of};

    ghost Value = { List Live };

    ghost view = { λ it. lives_of it.arena.now it.keys.now };

    ghost invariant = { λ it. IsKeyed (λ k. k) (entry_of it.arena.now) it.keys.now };
}

impl<'a> Iter<'a> {
    /// Those of these keys.
    pub(crate) fn new(arena: &'a Arena<(u64, Live)>, keys: &'a [Key]) -> Self
        requires { IsKeyed (λ k. k) (entry_of arena.now) keys.now }
        ensures { result ≡ lives_of arena.now keys.now }
    {
        Iter { arena, keys }
    }
}

impl<'a> Iterator for Iter<'a> {
    type Item = &'a Live;

    ghost next_gives = { YieldsFirstRef (λ rest. rest) };

    ghost remaining = { item_count (λ rest. rest) };

    fn next(&mut self) -> Option<&'a Live> {
        let (key, keys) = self.keys.split_first()?;
        self.keys = keys;
        let entry = self.arena.get(*key).unwrap();
        Some(&entry.1)
    }
}
