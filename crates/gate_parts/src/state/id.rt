//! How ids are drawn: in turn from 1 to the greatest, past those that are in flight.

ghost use Rattle.std.specs.Prelude.{◌≡◌, ◌+◌, ◌++◌, ◌<◌, length, false};
ghost use Rattle.redir_wire.specs.Header.{IdFits};
ghost use Rattle.gate_history.specs.state.Flight.{wide_ids};
ghost use Rattle.gate_history.specs.state.Ids.{id_after, greatest, holds, draw};
ghost use Rattle.gate_history.specs.state.StreamIds.{ids_of_streams};
ghost use Rattle.gate_parts.specs.state.Ids.{ids_in};

use crate::state::stream_ids::StreamIds;
use redir_wire::Caps;
use unlink_race::Lives;

/// The greatest id that these capabilities allow.
fn greatest(caps: Caps) -> u64
    ensures { result ≡ greatest (wide_ids caps) }
{
    if caps.contains(Caps::WIDE_IDS) {
        u64::MAX
    } else {
        u64::from(u32::MAX)
    }
}

/// The id after this one; 1 comes after the greatest.
fn id_after(greatest: u64, id: u64) -> u64
    ensures { result ≡ id_after greatest id }
{
    if id < greatest { id + 1 } else { 1 }
}

/// The first id after the last drawn that no request in flight has, and none of the starts and stops of streams. The
/// loop ends: it passes over no more ids than are in flight, and there are more ids than that.
pub fn draw(lives: &Lives, stream_ids: &StreamIds, caps: Caps, last: u64) -> u64
    requires few { length lives.now.live + length lives.now.abandoned + length (ids_of_streams stream_ids.now) < u32.MAX }
    ensures value { result ≡ draw (greatest (wide_ids caps)) (ids_in lives.now ++ ids_of_streams stream_ids.now) last }
    ensures free { holds (ids_in lives.now ++ ids_of_streams stream_ids.now) result ≡ false }
    ensures fits { IdFits (wide_ids caps) result }
{
    let greatest = greatest(caps);
    let mut id = id_after(greatest, last);
    while is_held(lives, stream_ids, id) {
        id = id_after(greatest, id);
    }
    id
}

/// Whether an id is in flight.
fn is_held(lives: &Lives, stream_ids: &StreamIds, id: u64) -> bool
    ensures { result ≡ holds (ids_in lives.now ++ ids_of_streams stream_ids.now) id }
{
    lives.holds_id(id) || stream_ids.holds(id)
}
