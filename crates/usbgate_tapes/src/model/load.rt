//! The command `load`: what a gateway counts as the steps of the tape that a number stands for are done with it and a
//! modelled loop.

ghost use Rattle.std.specs.Prelude.{◌≡◌, ◌≢◌, ◌≤◌, [], ℕ, IfOk, OnOk};
ghost use Rattle.direct_system.specs.Stands.{SystemStands};
ghost use Rattle.made_tape.specs.declared.made.TheConstants.{MOST_ROUNDS};
ghost use Rattle.made_tape.specs.Rounds.{made_lines};
ghost use Rattle.tape_run.specs.model.Made.{loaded};
ghost use Rattle.tape_run.specs.Printout.{printed};
ghost use Rattle.tape_run.specs.Logs.{RunWrites};
ghost use Rattle.usbgate_tapes.specs.model.Simulated.{MadeSimulates};
ghost use Rattle.tape_run.specs.Causes.{HasCauses};
ghost use Rattle.usbgate_tapes.specs.inner.model.Loaded.{steps_after};

use crate::model::do_line;
use direct_system::{System, systems_are_direct};
use gate_outside::Sink;
use made_tape::{MadeTape, read_again};
use model_device::{Gadget, Loopback};
use std::alloc::Global;
use tape_run::{Status, print, push_counts};
use usb_base::{Bytes, Memory};

/// Prints the counts.
pub fn load<K: Sink>(alloc: Global, count: u16, out: &mut K) -> Status
    requires { count ≤ MOST_ROUNDS }
    ensures leaves { RunWrites K.write_gives K.contents result (printed (loaded count)) out.old out.new }
    ensures causes { (faults : ℕ) → HasCauses result faults faults (K.faults out.old) (K.faults out.new) }
    ensures command { result ≢ Status.Usage }
    ensures simulates { result ≡ Status.Done → MadeSimulates count }
{
    match counted(alloc, count) {
        Ok(text) => print(text.as_slice(), Status::Done, out),
        Err(_) => Status::OutOfMemory,
    }
}

/// The line of the counts.
fn counted(alloc: Global, count: u16) -> Result<Bytes, Memory>
    requires { count ≤ MOST_ROUNDS }
    ensures text { IfOk result (λ text. text ≡ loaded count) }
    ensures simulates { OnOk result (MadeSimulates count) }
{
    systems_are_direct::<Loopback>();
    let system = done(alloc, Loopback::make(alloc)?, count)?;
    read_again(count);
    let mut text = Bytes::new(alloc);
    push_counts(alloc, &system.counts(), &mut text)?;
    Ok(text)
}

/// The system of a device with which the steps of the tape were done.
fn done<G: Gadget>(alloc: Global, gadget: G, count: u16) -> Result<System<G>, Memory>
    ensures { IfOk result (λ system. SystemStands G.meaning gadget system (steps_after (made_lines count) [])) }
{
    let (mut system, _) = System::make(alloc, gadget)?;
    let mut tape = MadeTape::new(count);
    'lines: while let Some(line) = tape.next_line(alloc)? {
        do_line(&mut system, &line)?;
    }
    Ok(system)
}
