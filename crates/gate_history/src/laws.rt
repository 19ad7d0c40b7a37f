//! Laws of what the gate means, as contracts of functions that do nothing.

ghost use Rattle.std.specs.Prelude.{◌≡◌, ◌<◌, ◌≤◌, ◌↔◌, ℕ, List, ◌∷◌, length, map, filter};
ghost use Rattle.std.specs.List.{list_any, flat_map, AllByRecursion};
ghost use Rattle.std.specs.Option.{option_to_list};
ghost use Rattle.usb_base.specs.Number.{AreBytes};
ghost use Rattle.packet_stream.specs.Split.{SplitsWell};
ghost use Rattle.redir_data.specs.Streams.{after, stream_format, stream_start};
ghost use Rattle.stream_buffers.specs.declared.up.TheConstants.{MAX_HELD};
ghost use Rattle.gate_history.specs.step.Streams.{client_start};
ghost use Rattle.gate_history.specs.step.Events.{PastEvent};
ghost use Rattle.gate_history.specs.declared.item.Item.{Item};
ghost use Rattle.gate_history.specs.state.Ids.{draw, greatest, IsNext, AreFresh, Once};
ghost use Rattle.gate_history.specs.client.Submits.{live};
ghost use Rattle.gate_history.specs.state.Flight.{wide_ids, in_flight};
ghost use Rattle.gate_history.specs.state.Ups.{held_of, streams};
ghost use Rattle.gate_history.specs.state.State.{state_of, is_number};
ghost use Rattle.gate_history.specs.step.Meaning.{mark_of};
ghost use Rattle.gate_history.specs.step.Past.{past};
ghost use Rattle.gate_history.specs.step.History.{client_split, host_split, client_items, host_items, brought, arrivals, history};
ghost use Rattle.gate_history.specs.write.Output.{to_client, to_host};
ghost use Rattle.gate_history.specs.write.Notes.{notes_of, dropped};
ghost use Rattle.gate_history.specs.write.All.{all_of, counts_of};
ghost use Rattle.gate_history.specs.write.Bytes.{client_bytes_of, host_bytes_of};
ghost use Rattle.gate_history.specs.step.Machine.{run, run_counts, steps, GivesPast, AddsItems};
ghost use Rattle.gate_history.specs.client.Turns.{turns, Alternate, answers_in, answered_ends, answer_of};
ghost use Rattle.gate_history.specs.host.Losses.{Loses, EndsAll};
ghost use Rattle.gate_history.specs.state.Sound.{IsSound, HasFewPackets, DrawFresh};
ghost use Rattle.gate_history.specs.write.Readable.{SentCanBeRead, piece_bytes};
ghost use Rattle.gate_history.specs.step.Refusals.{causes, is_refusal, client_wrongs, host_wrongs};
ghost use Rattle.redir_wire.specs.declared.packet.Way.TheVariants.{ToGuest};
ghost use Rattle.usbip_urb.specs.ClientPackets.{client_packets};
ghost use Rattle.usb_base.specs.declared.limits.TheConstants.{LONGEST_CLIENT_PACKET, LONGEST_HOST_PACKET};

use packet_stream::splits_well;
use redir_data::FromHost;
use usbip_urb::ClientFormat;

/// A law: the stream of each side is its packets and a rest in one way, and the splitting that the history is made of
/// is that way. Whoever reads the history may take `IsSplitting` for `split`.
pub fn streams_split_one_way()
    ensures client { SplitsWell (λ s. client_packets) (λ s p. s) client_start }
    ensures host { SplitsWell (stream_format ToGuest) after stream_start }
{
    splits_well::<ClientFormat>();
    splits_well::<FromHost>();
}

/// A law: the machine's state is what the searches of the past find, and it sends, tells and counts the same.
pub fn machine_is_past()
    ensures state { (first : ℕ) (items : List Item) → state_of first (past first items) ≡ run first items }
    ensures client { GivesPast to_client }
    ensures host { GivesPast to_host }
    ensures client_bytes { GivesPast client_bytes_of }
    ensures host_bytes { GivesPast host_bytes_of }
    ensures notes { GivesPast notes_of }
    ensures counts { (first : ℕ) (items : List Item) → counts_of first (past first items) ≡ run_counts first items }
{}

/// A law: one event more is the items that it brings, one after another, to the state and to all that was given.
pub fn events_add_items()
    ensures state { (first : ℕ) (events : List PastEvent) (event : PastEvent)
        → state_of first (history first (event ∷ events)) ≡ steps (state_of first (history first events)) (brought events event) }
    ensures client { AddsItems to_client }
    ensures client_bytes { AddsItems client_bytes_of }
    ensures host_bytes { AddsItems host_bytes_of }
    ensures notes { AddsItems notes_of }
    ensures dropped { AddsItems dropped }
{}

/// A law: of each number, submits and their ends alternate, a submit first. The answers that are sent are, in order,
/// one for each end that isn't a client's leaving: that submit's completion, or its unlink's success.
pub fn submits_end_once()
    ensures alternate { (first : ℕ) (items : List Item) (number : ℕ)
        → Alternate (list_any (is_number number) (live (past first items))) (turns (past first items) number) }
    ensures answered { (first : ℕ) (items : List Item)
        → flat_map answers_in (all_of to_client first (past first items))
        ≡ map (answer_of (past first items)) (answered_ends (past first items)) }
{}

/// A law: with a loss of the device each submit that is live gets one answer, none is live after it, and none that
/// was accepted before it is live later.
pub fn losses_end_all()
    ensures { (first : ℕ) (items : List Item) (item : Item)
        → Loses (state_of first (past first items)) item → EndsAll first items item }
{}

/// A law: after every past few requests are live, none of which is one that is answered where it is accepted, what a
/// former client left is gone before the next one has imported, and a number and an id are each that of one request at
/// most.
pub fn states_are_sound()
    ensures { (first : ℕ) (items : List Item) → IsSound (state_of first (past first items)) }
{}

/// A law: no id is in flight twice. The ids that an item draws, but for a submit with more descriptors than any that
/// is read, are in range and in flight nowhere, and no two are one. So are those of every item that events bring. A
/// drawn id is the first after the last one that isn't in flight.
pub fn ids_fly_once()
    ensures once { (first : ℕ) (items : List Item) → Once (in_flight (past first items)) }
    ensures fresh { (first : ℕ) (items : List Item) (item : Item) → HasFewPackets item
        → AreFresh (greatest (wide_ids (state_of first (past first items)).sides.agreed)) (in_flight (past first items))
        (mark_of (state_of first (past first items)) item).drawn }
    ensures drawn { (first : ℕ) (events : List PastEvent) → AreBytes (flat_map piece_bytes events) → DrawFresh first (arrivals events) }
    ensures next { (m : ℕ) (flying : List ℕ) (last id : ℕ)
        → length flying < m → (id ≡ draw m flying last ↔ IsNext m flying last id) }
{}

/// A law: the refusals that are told are, in order, one for each wrong place of a side's stream and one for each packet
/// that breaks a rule of the gate, and there is no other. The items of a side's bytes have the wrong place of their
/// splitting, where that has one.
pub fn refusals_have_causes()
    ensures told { (first : ℕ) (items : List Item) → filter is_refusal (all_of notes_of first (past first items)) ≡ causes first items }
    ensures client { (bytes : List ℕ) → client_wrongs (client_items bytes) ≡ option_to_list (client_split bytes).wrong }
    ensures host { (bytes : List ℕ) → host_wrongs (host_items bytes) ≡ option_to_list (host_split bytes).wrong }
{}

/// A law: what is left of a side's stream of packets that aren't whole is shorter than its longest packet.
pub fn rests_are_short()
    ensures client { (bytes : List ℕ) → AreBytes bytes → length (client_split bytes).rest < LONGEST_CLIENT_PACKET }
    ensures host { (bytes : List ℕ) → AreBytes bytes → length (host_split bytes).rest < LONGEST_HOST_PACKET }
{}

/// A law: after every past each stream holds at most 1,024 packets.
pub fn streams_hold_few()
    ensures { (first : ℕ) (items : List Item) → AllByRecursion (λ o. length (held_of o) ≤ MAX_HELD) (streams (past first items)) }
{}

/// A law: where the bytes of events are bytes, the host can read all packets that it was sent for them, spelled with
/// the capabilities that are agreed behind them.
pub fn sent_can_be_read()
    ensures { SentCanBeRead }
{}
