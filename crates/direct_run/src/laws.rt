//! Laws of steps on two wires, as contracts of functions that do nothing.

ghost use Rattle.std.specs.Prelude.{◌≡◌, ◌++◌, List};
ghost use Rattle.gate_history.specs.write.Bytes.{out_client};
ghost use Rattle.gate_history.specs.step.Events.{host_bytes};
ghost use Rattle.gate_history.specs.step.History.{history};
ghost use Rattle.redir_host.specs.step.Acts.{guest_bytes};
ghost use Rattle.direct_run.specs.Steps.{PastStep};
ghost use Rattle.direct_run.specs.Trace.{all_told, trace as trace_of};
ghost use Rattle.direct_run.specs.World.{first_id, nothing_yet, course, sent_to_host, sent_to_gate, wire_to_host, wire_to_gate};
ghost use Rattle.direct_run.specs.Known.{IsKnown};
ghost use Rattle.direct_run.specs.Follows.{AreMoves};
ghost use Rattle.direct_run.specs.declared.told.Told.{Told as TheTold};

use model_device::Gadget;

/// A law: what the steps of a run send, one after another and behind the hellos, is what the gateway sends for its
/// events and the host for its acts.
pub fn wires_are_outputs<G: Gadget>()
    ensures client { (first : G) (steps : List PastStep)
        → all_told (λ (told : TheTold). told.to_client) G.meaning first steps ≡ out_client first_id (history first_id (course G.meaning first steps).events) }
    ensures host { (first : G) (steps : List PastStep)
        → sent_to_host nothing_yet ++ all_told (λ (told : TheTold). told.to_host) G.meaning first steps ≡ sent_to_host (course G.meaning first steps) }
    ensures gate { (first : G) (steps : List PastStep)
        → sent_to_gate G.meaning first nothing_yet ++ all_told (λ (told : TheTold). told.from_host) G.meaning first steps ≡ sent_to_gate G.meaning first (course G.meaning first steps) }
{}

/// A law: what has got to the host, and then what is on the wire to it, is all that the gateway has sent, and likewise
/// to the gateway: no byte is lost, comes twice or out of order, and none comes that wasn't sent.
pub fn wires_lose_nothing<G: Gadget>()
    ensures host { (first : G) (steps : List PastStep)
        → guest_bytes (course G.meaning first steps).acts ++ wire_to_host (course G.meaning first steps) ≡ sent_to_host (course G.meaning first steps) }
    ensures gate { (first : G) (steps : List PastStep)
        → host_bytes (course G.meaning first steps).events ++ wire_to_gate G.meaning first (course G.meaning first steps) ≡ sent_to_gate G.meaning first (course G.meaning first steps) }
{}

/// A law: what steps do with bytes in pieces, moves do with packets. Behind every list of steps whose course is known,
/// as that of a system is, there are moves that leave both sides the same, have the same packets on the wires and to
/// the clients, and tell the same; and the host has refused nothing of what the gateway sent it.
pub fn steps_are_moves<G: Gadget>()
    ensures { (first : G) (steps : List PastStep) → IsKnown G.meaning first (course G.meaning first steps)
        → AreMoves G.meaning first (course G.meaning first steps) (trace_of G.meaning first steps) }
{}
