//! The command `host`: a modelled device that is lent to a guest over its link.

ghost use Rattle.std.specs.Prelude.{◌≡◌, ◌≤◌, false};
ghost use Rattle.usb_base.specs.declared.side.Side.TheVariants.{Client, Host};
ghost use Rattle.bridge_run.specs.log.Log.{Told};
ghost use Rattle.usbgate_commands.specs.links.Logs.{RunLends};
ghost use Rattle.usbgate_commands.specs.links.Serves.{Known, known_untaped};
ghost use Rattle.usbgate_commands.specs.inner.Lent.{IsLent};

use crate::links::ended::ended_as;
use crate::links::serve::BUDGET;
use crate::words::lending::Lending;
use bridge_serve::serve_host;
use gate_outside::{Doors, Sink};
use model_device::Gadget;
use std::alloc::Global;
use tape_run::{DeviceUser, Status};

/// Lends the device to a guest, and writes a line where the guest is refused.
pub fn host<D: Doors, K: Sink>(
    alloc: Global,
    lending: &Lending<'_>,
    doors: &mut D,
    out: &mut K,
) -> Status
    requires down { ((D.link doors.old Client).up ≡ false) × ((D.link doors.old Host).up ≡ false) }
    requires idle { 1 ≤ lending.now.idle }
    ensures lends { let known : D → K → Known = known_untaped D.link D.door K.faults K.contents out.old in
        RunLends D.call_gives (Told K.write_gives out.old out.new) result lending.now doors.old doors.new (known doors.old out.old) (known doors.new out.new) }
{
    let (listen, idle) = (lending.listen, lending.idle);
    match lending.device.make_for(
        alloc,
        &mut Lender {
            alloc,
            listen,
            idle,
            doors,
            out,
        },
    ) {
        Ok(status) => status,
        Err(_) => Status::OutOfMemory,
    }
}

/// Lends a device to a guest, whichever it is.
#[derive(Drop)]
struct Lender<'a, 'w, D, K> {
    alloc: Global,
    listen: &'w str,
    idle: u32,
    doors: &'a mut D,
    out: &'a mut K,
}

impl<'a, 'w, D: Doors, K: Sink> DeviceUser for Lender<'a, 'w, D, K> {
    type Answer = Status;

    ghost Ready = { λ lender. ((D.link lender.doors.now Client).up ≡ false) × ((D.link lender.doors.now Host).up ≡ false) × (1 ≤ lender.idle) };

    ghost Holds = { λ old new status. (new.doors.ghost_name ≡ old.doors.ghost_name) × (new.out.ghost_name ≡ old.out.ghost_name) };

    ghost Comes = { λ old new status S m s. let known : D → K → Known = known_untaped D.link D.door K.faults K.contents old.out.now in
        IsLent D.call_gives (Told K.write_gives old.out.now new.out.now) status m s old.listen.now old.idle old.doors.now new.doors.now (known old.doors.now old.out.now) (known new.doors.now new.out.now) };

    fn take<G: Gadget>(&mut self, gadget: G) -> Status {
        let end = serve_host(
            self.alloc,
            gadget,
            self.listen,
            u64::from(self.idle),
            BUDGET,
            self.doors,
            self.out,
        );
        ended_as(end)
    }
}
