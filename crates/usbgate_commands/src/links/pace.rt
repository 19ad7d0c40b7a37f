//! How often a modelled device that is lent has something to give.

ghost use Rattle.model_device.specs.Transfer.{IsTransfer};

use crate::links::interval::shortest_micros;
use crate::words::command::Command;
use chapter9::{WalkError, walk};
use model_device::Gadget;
use std::alloc::Global;
use std::time::Duration;
use tape_run::DeviceUser;
use usb_base::request::{FROM_DEVICE, GET_DESCRIPTOR};
use usb_base::{Bytes, EpAddr, Memory, Setup, Speed, Transfer};

/// The shortest of the intervals at which IN endpoints of the device that the words lend have packets. None where they
/// lend no device, or one that has no such endpoint.
pub fn pace_of(alloc: Global, words: &[&str]) -> Result<Option<Duration>, Memory> {
    match Command::read(alloc, words)? {
        Command::Host(lending) => lending.device.make_for(alloc, &mut Pacing { alloc })?,
        _ => Ok(None),
    }
}

/// Asks a device for its pace, whichever it is.
#[derive(Clone, Copy)]
struct Pacing {
    alloc: Global,
}

impl DeviceUser for Pacing {
    type Answer = Result<Option<Duration>, Memory>;

    ghost Ready = { λ pacing. Unit {0} };

    ghost Holds = { λ old new answer. Unit {0} };

    ghost Comes = { λ old new answer S m s. Unit {0} };

    fn take<G: Gadget>(&mut self, gadget: G) -> Result<Option<Duration>, Memory> {
        shortest(self.alloc, gadget)
    }
}

/// The shortest of the intervals that the device's configuration tells.
fn shortest<G: Gadget>(alloc: Global, mut gadget: G) -> Result<Option<Duration>, Memory> {
    let speed = Speed::from_redir(gadget.identity().speed);
    let Some(outcome) = gadget.perform(alloc, &configuration_asked(alloc))? else {
        return Ok(None);
    };
    let parts = match walk(alloc, outcome.body.as_slice()) {
        Ok(parts) => parts,
        Err(WalkError::Memory(memory)) => return Err(memory),
        Err(WalkError::Bad { .. }) => return Ok(None),
    };
    let micros = shortest_micros(speed, parts.as_slice());
    Ok(micros.map(Duration::from_micros))
}

/// The request for the configuration's descriptors (USB 2.0, 9.4.3).
fn configuration_asked(alloc: Global) -> Transfer
    ensures { IsTransfer result }
{
    Transfer {
        ep: EpAddr::control(true),
        setup: Some(Setup {
            kind: FROM_DEVICE,
            request: GET_DESCRIPTOR,
            value: 0x0200,
            index: 0,
            length: 0xFFFF,
        }),
        wanted: 0xFFFF,
        body: Bytes::new(alloc),
    }
}
