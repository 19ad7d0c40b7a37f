//! Laws of the relation between the machines and the device attached directly, as contracts of functions that do
//! nothing.

ghost use Rattle.std.specs.Prelude.{◌≡◌, List};
ghost use Rattle.std.specs.List.{flat_map, AllByRecursion};
ghost use Rattle.direct_device.specs.Direct.{first_direct};
ghost use Rattle.direct_device.specs.Legal.{AreAllowed, all_answers};
ghost use Rattle.direct_run.specs.Clients.{IsMove};
ghost use Rattle.direct_run.specs.Known.{IsKnown};
ghost use Rattle.direct_run.specs.Moves.{World, Move, run};
ghost use Rattle.direct_run.specs.Steps.{PastStep};
ghost use Rattle.direct_run.specs.World.{course};
ghost use Rattle.direct_proof.specs.Deeds.{as_deeds};
ghost use Rattle.direct_proof.specs.Related.{Related};
ghost use Rattle.direct_proof.specs.Runs.{AreDirectly, IsRun, urb_in};
ghost use Rattle.direct_proof.specs.Shared.{Shared};
ghost use Rattle.direct_proof.specs.Simulates.{Simulates};

use model_device::Gadget;

/// A law: under every schedule of moves that bytes can make, what happens is a legal trace of the device attached
/// directly, and the client gets just its answers. Clients list, import, submit, unlink, are refused and leave, one
/// after another; packets get to either side; the device performs, sends packets of its streams, and is taken away.
/// From any moment on at which gateway and host stand for the device attached directly, they still do afterwards; at
/// the first moment they do.
pub fn moves_are_direct<G: Gadget>()
    ensures kept { (world : World G) (shared : Shared) (moves : List Move) → Related G.meaning world shared → IsRun world.gate
        → AllByRecursion IsMove moves → AreDirectly G.meaning world shared moves }
    ensures legal { (first : G) (moves : List Move) → AllByRecursion IsMove moves
        → AreAllowed G.meaning (first_direct first) (run as_deeds G.meaning first moves).told }
    ensures answers { (first : G) (moves : List Move) → AllByRecursion IsMove moves
        → flat_map urb_in (run as_deeds G.meaning first moves).outs ≡ all_answers G.meaning (first_direct first) (run as_deeds G.meaning first moves).told }
{}

/// A law: the simulation. For every device that meets *Gadget*, and every list of steps on bytes whose course is known,
/// as that of a system is: the items that they told are a legal trace of the device attached directly, with the
/// requests of the submits that were accepted; what clients were sent, list and import replies aside, is just its
/// answers, and each client got its replies before its answers; neither gateway nor host refuses the other; and behind
/// an unplugging the device performs and sends nothing.
pub fn simulation<G: Gadget>()
    ensures { (first : G) (steps : List PastStep) → IsKnown G.meaning first (course G.meaning first steps)
        → Simulates G.meaning first steps }
{}
