//! A request in its cell of the arena, with the rank that says when it was accepted.

ghost use Rattle.std.specs.Prelude.{◌≡◌, ℕ, Some, map};
ghost use Rattle.urb_arena.specs.ArenaView.{arena_view};
ghost use Rattle.urb_arena.specs.Lanes.{find_in, replaced};
ghost use Rattle.unlink_race.specs.declared.live.Live.{Live};
ghost use Rattle.unlink_race.specs.Unlinking.{unlinked_by};

use crate::live::Live;
use urb_arena::{Arena, Key};

/// Marks the request of a key as asked back by the unlink with this number.
pub fn mark(arena: &mut Arena<(u64, Live)>, key: Key, by: u32)
    requires { (entry : ℕ × Live) × (find_in key arena.old.lanes ≡ Some entry) }
    ensures { (entry : ℕ × Live) → find_in key arena.old.lanes ≡ Some entry → arena.new ≡ arena_view (map (replaced key (entry.0, unlinked_by by entry.1)) arena.old.lanes) arena.old.capacity }
{
    let entry = arena.get_mut(key).unwrap();
    entry.1.unlinker = Some(by);
}

/// Gives the request of a key another rank.
pub fn set_rank(arena: &mut Arena<(u64, Live)>, key: Key, rank: u64)
    requires { (entry : ℕ × Live) × (find_in key arena.old.lanes ≡ Some entry) }
    ensures { (entry : ℕ × Live) → find_in key arena.old.lanes ≡ Some entry → arena.new ≡ arena_view (map (replaced key (rank, entry.1)) arena.old.lanes) arena.old.capacity }
{
    let entry = arena.get_mut(key).unwrap();
    entry.0 = rank;
}
