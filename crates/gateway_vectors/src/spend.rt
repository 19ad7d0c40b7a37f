//! Serving until so many bytes and links have come, for which no words ask.

ghost use Rattle.std.specs.Prelude.{◌≡◌, ◌≤◌, false};
ghost use Rattle.usb_base.specs.declared.side.Side.TheVariants.{Client, Host};

use bridge_serve::{AfterLoss, RunTerms, ServeTerms, serve, serve_host};
use gate_outside::{Doors, Sink};
use model_device::Loopback;
use session_tape::NoTape;
use std::alloc::Global;
use tape_run::Status;
use usbgate_commands::ended_as;

/// How many rounds in a row may bring nothing.
const IDLE: u64 = 5;

/// Serves as `serve` does, or lends a loop as `host` does, until so many bytes and links have come, or some rounds in a
/// row bring nothing.
pub fn spend<D: Doors, K: Sink>(
    alloc: Global,
    words: &[&str],
    budget: u64,
    doors: &mut D,
    out: &mut K,
) -> Status
    requires down { ((D.link doors.old Client).up ≡ false) × ((D.link doors.old Host).up ≡ false) }
    requires budget { 1 ≤ budget }
{
    match words {
        ["serve"] => {
            let run = RunTerms {
                host: "a:1",
                listen: "b:2",
                idle: IDLE,
                budget,
            };
            let terms = ServeTerms {
                first_id: 1,
                after_loss: AfterLoss::Keep,
                run,
            };
            ended_as(serve(alloc, terms, doors, out, &mut NoTape))
        }
        ["host"] => match Loopback::make(alloc) {
            Ok(device) => ended_as(serve_host(alloc, device, "b:1", IDLE, budget, doors, out)),
            Err(_) => Status::OutOfMemory,
        },
        _ => Status::Usage,
    }
}
