//! A law of systems, as the contract of a function that does nothing.

ghost use Rattle.std.specs.Prelude.{List};
ghost use Rattle.direct_run.specs.Steps.{PastStep};
ghost use Rattle.direct_run.specs.World.{course};
ghost use Rattle.direct_device.specs.Legal.{IsDirect};
ghost use Rattle.direct_proof.specs.Simulates.{Simulates};
ghost use Rattle.direct_proof.specs.Steps.{answers_of, requests_of};
ghost use Rattle.direct_system.specs.Kept.{SystemKept};
ghost use Rattle.direct_system.specs.Stands.{SystemStands};

use direct_proof::simulation;
use model_device::Gadget;

/// A law: the simulation, of a system that stands for steps, with no premise beyond that. The trace that it keeps is a
/// legal trace of the device attached directly, with the requests of the submits that were accepted, and what clients
/// were sent, list and import replies aside, is just its answers.
pub fn systems_are_direct<G: Gadget>()
    ensures direct { (first : G) (kept : SystemKept G) (steps : List PastStep) → SystemStands G.meaning first kept steps
        → IsDirect G.meaning first (requests_of (course G.meaning first steps)) kept.trace (answers_of (course G.meaning first steps)) }
    ensures simulates { (first : G) (kept : SystemKept G) (steps : List PastStep) → SystemStands G.meaning first kept steps
        → Simulates G.meaning first steps }
{
    simulation::<G>();
}
