//! What is done with a modelled device, whichever it is.

ghost use Rattle.std.specs.Prelude.{◌≡◌, IfOk, OnErr};
ghost use Rattle.model_device.specs.Meaning.{Meaning};
ghost use Rattle.tape_run.specs.model.Device.{as_plugged};

use crate::model::device::{BLOCKS, Device};
use disk_gadget::Disk;
use model_device::{Gadget, Keyboard, Loopback, Tone};
use std::alloc::Global;
use usb_base::Memory;

/// Takes a modelled device, whichever it is: `Device::make_for` makes the one that is asked for.
pub trait DeviceUser {
    /// What comes of it.
    type Answer;

    /// It may be handed a device.
    ghost Ready: { Self → Type 0 };

    /// What comes of every device.
    ghost Holds: { Self → Self → Self.Answer → Type 0 };

    /// What comes of a device by what it means, and by its state as it is plugged in.
    ghost Comes: { Self → Self → Self.Answer → (S : Type 0) → Meaning S → S → Type 0 };

    /// Does with the device what is to be done.
    fn take<G: Gadget>(&mut self, gadget: G) -> Self::Answer
        requires { Ready self.old }
        ensures holds { Holds self.old self.new result }
        ensures comes { Comes self.old self.new result G G.meaning gadget };
}

impl Device {
    /// Makes the device, as it is plugged in, and hands it to its user. For want of memory its user takes none.
    pub fn make_for<U: DeviceUser>(self, alloc: Global, user: &mut U) -> Result<U::Answer, Memory>
        requires { U.Ready user.old }
        ensures holds { IfOk result (λ answer. U.Holds user.old user.new answer) }
        ensures comes { IfOk result (λ answer. as_plugged (λ S m s. U.Comes user.old user.new answer S m s) self) }
        ensures untaken { OnErr result (user.new ≡ user.old) }
    {
        match self {
            Device::Keyboard => Ok(user.take(Keyboard::make(alloc)?)),
            Device::Loopback => Ok(user.take(Loopback::make(alloc)?)),
            Device::Tone => Ok(user.take(Tone::make(alloc)?)),
            Device::Disk => Ok(user.take(Disk::make(alloc, BLOCKS)?)),
        }
    }
}
