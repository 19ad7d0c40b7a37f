//! Laws of a host's definitions, as contracts of functions that do nothing.

ghost use Rattle.std.specs.Prelude.{◌≡◌, ◌≤◌, ◌+◌, [], ◌∷◌, ◌++◌, Bool, false, true, ℕ, List, length, map, filter, fold};
ghost use Rattle.std.specs.List.{AllByRecursion};
ghost use Rattle.usb_base.specs.Number.{AreBytes};
ghost use Rattle.redir_wire.specs.declared.packet.Header.{Header};
ghost use Rattle.redir_data.specs.declared.packet.RedirPacket.{RedirPacket};
ghost use Rattle.redir_host.specs.declared.state.host.Host.{Host};
ghost use Rattle.redir_host.specs.step.Acts.{Act, Perform, Offer, Unplug, guest_bytes};
ghost use Rattle.redir_host.specs.guest.Guest.{guest_items};
ghost use Rattle.redir_host.specs.step.Answered.{IsKnown, IsSublist, answer_of, answered, answers_sent, dropped, ids_of, is_gone, is_in_queue_of, is_placed, line, performed_of, requests, requests_of, statuses_sent, stream_ids, told_placed, told_request, waiting};
ghost use Rattle.redir_host.specs.step.History.{brought, history, of_guest};
ghost use Rattle.redir_host.specs.step.Items.{Item};
ghost use Rattle.redir_host.specs.guest.Line.{Placed, queue_in, reset_in};
ghost use Rattle.redir_host.specs.step.Machine.{all_given, run, step};
ghost use Rattle.redir_host.specs.step.Makes.{IsTaken};
ghost use Rattle.redir_host.specs.device.Offering.{offer_move, unplug_move};
ghost use Rattle.redir_host.specs.write.Output.{act_bytes, act_notes, host_of, host_out};
ghost use Rattle.redir_host.specs.guest.Packets.{packet_move};
ghost use Rattle.redir_host.specs.device.Performing.{perform_move};
ghost use Rattle.redir_host.specs.state.Sound.{IsSound};

use model_device::Gadget;

/// A law: one act more is the items that it brings, one after another, to the host and to all that was sent.
pub fn acts_add_items<G: Gadget>()
    ensures host { (first : G) (acts : List Act) (act : Act)
        → host_of G.meaning first (act ∷ acts) ≡ fold (step G.meaning) (host_of G.meaning first acts) (brought acts act) }
    ensures out { (first : G) (acts : List Act) (act : Act)
        → host_out G.meaning first (act ∷ acts) ≡ host_out G.meaning first acts ++ act_bytes G.meaning first acts act }
{}

/// A law: what acts bring of the guest, its packets and its wrong place, is what all its bytes split into, in order,
/// however they were cut.
pub fn acts_bring_the_split()
    ensures { (acts : List Act) → AreBytes (guest_bytes acts) → of_guest (history acts) ≡ guest_items (guest_bytes acts) }
{}

/// A law: performs, offers and the end tell nothing beside their answers, so that all notes come of the guest's bytes.
pub fn only_bytes_are_noted<G: Gadget>()
    ensures perform { (first : G) (acts : List Act) (ep : ℕ) → act_notes G.meaning first acts (Perform ep) ≡ [] }
    ensures offer { (first : G) (acts : List Act) (ep : ℕ) → act_notes G.meaning first acts (Offer ep) ≡ [] }
    ensures unplug { (first : G) (acts : List Act) → act_notes G.meaning first acts Unplug ≡ [] }
{}

/// A law: what is known of a host stays known, whatever its guest can send and whatever is done with it.
pub fn hosts_stay_sound<G: Gadget>()
    ensures take { (host : Host G) (header : Header) (packet : RedirPacket)
        → IsSound host → IsTaken host.guest header packet → IsSound (packet_move G.meaning host header.id packet).host }
    ensures perform { (host : Host G) (ep : ℕ) → IsSound host → IsSound (perform_move G.meaning host ep).host }
    ensures offer { (host : Host G) (ep : ℕ) → IsSound host → IsSound (offer_move G.meaning host ep).host }
    ensures unplug { (host : Host G) → IsSound host → IsSound (unplug_move host).host }
{}

/// A law: the requests that a host keeps, with their marks, and the mark of the next one are read off a line of
/// requests and resets in order of arrival: a reset stands in it as a request does, and goes with the first request of
/// endpoint 0 behind it.
pub fn queues_are_lines<G: Gadget>()
    ensures queue { (first : G) (items : List Item) → (run G.meaning first items).queue ≡ queue_in false (line G.meaning first items) }
    ensures reset { (first : G) (items : List Item) → (run G.meaning first items).resets_next ≡ reset_in false (line G.meaning first items) }
{}

/// A law: each packet of the guest that asks for a transfer, also for one that can't be asked, is one request, and is
/// answered at most once: whatever comes, each request has been answered, waits, or was dropped, once, and none is
/// dropped but with the device. What was sent as answers is, in order, one answer for each request that has been
/// answered.
pub fn answered_at_most_once<G: Gadget>()
    ensures placed { (items : List Item) (place : ℕ) → length (filter (is_placed place) (requests items)) ≤ 1 }
    ensures once { (first : G) (items : List Item) (place : ℕ)
        → length (filter (is_placed place) (requests_of (answered G.meaning first items))) ≤ 1 }
    ensures counted { (first : G) (items : List Item) (test : Placed → Bool)
        → length (filter test (requests items))
        ≡ length (filter test (requests_of (answered G.meaning first items)))
        + length (filter test (waiting G.meaning first items))
        + length (filter test (dropped G.meaning first items)) }
    ensures kept { (first : G) (items : List Item) → is_gone items ≡ false → dropped G.meaning first items ≡ [] }
    ensures gone { (first : G) (items : List Item) → is_gone items ≡ true → waiting G.meaning first items ≡ [] }
    ensures sent { (first : G) (items : List Item)
        → answers_sent G.meaning first items ≡ map answer_of (answered G.meaning first items) }
    ensures queue { (first : G) (items : List Item)
        → map told_request (run G.meaning first items).queue ≡ map told_placed (waiting G.meaning first items) }
{}

/// A law: the device performs the requests of each queue in the order in which they came, and those that wait came
/// behind those that it has performed.
pub fn performed_in_order<G: Gadget>()
    ensures { (first : G) (items : List Item) (ep : ℕ)
        → IsSublist (filter (is_in_queue_of ep) (performed_of (answered G.meaning first items) ++ waiting G.meaning first items))
        (filter (is_in_queue_of ep) (requests items)) }
{}

/// A law: each packet of the guest that starts or stops a stream, and came before the device was taken away, is
/// answered by one status, in order, and no other status is sent.
pub fn streams_answered_at_once<G: Gadget>()
    ensures { (first : G) (items : List Item) → ids_of (statuses_sent G.meaning first items) ≡ stream_ids items }
{}

/// A law: each packet that is sent answers a request, is a status of a stream, or has id 0, so that no other packet of
/// the guest is answered.
pub fn nothing_else_is_answered<G: Gadget>()
    ensures { (first : G) (items : List Item) → AllByRecursion IsKnown (all_given (λ v. v.sent) G.meaning first items) }
{}
