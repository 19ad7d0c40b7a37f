//! A device of one function, which answers endpoint 0 by its descriptors.

ghost use Rattle.std.specs.Prelude.{◌≡◌, IfOk};
ghost use Rattle.model_device.specs.Device.{first_state};

use crate::framework::{Framework, is_done_change};
use crate::function::Function;
use crate::gadget::Gadget;
use chapter9::stall;
use redir_wire::{Connect, InterfaceInfo};
use std::alloc::Global;
use std::marker::Model;
use usb_base::{EpAddr, EpTable, Memory, Outcome, StreamPacket, Transfer};

/// A device whose endpoint 0 answers by its descriptors, and whose other endpoints are its function's. A change that
/// succeeds begins the function anew.
#[derive(Drop)]
pub struct Device<F: Function> {
    framework: Framework,
    function: F,
}

impl<F: Function> Model for Device<F> {
    ghost use Rattle.model_device.specs.Device.{State};
    ghost use Rattle.model_device.specs.Inside.{HasSet};

    ghost Value = { State F };

    ghost view = { λ d. record { device = d.framework.state; kept = d.function } };

    ghost invariant = { λ d. HasSet F.described.set d.framework };
}

impl<F: Function> Device<F> {
    /// The device as it was just plugged in.
    pub fn make(alloc: Global) -> Result<Device<F>, Memory>
        ensures { IfOk result (λ made. made ≡ first_state F.described) }
    {
        Ok(Device {
            framework: Framework::make(alloc, F::product().descriptors(alloc)?)?,
            function: F::first(alloc),
        })
    }
}

impl<F: Function> Gadget for Device<F> {
    ghost use Rattle.model_device.specs.Device.{meaning_of};
    ghost use Rattle.model_device.specs.inner.Lawful.{lawful};

    ghost meaning = { meaning_of F.described };

    fn identity(&self) -> Connect {
        self.framework.identity(F::product().speed)
    }

    fn configuration(&self) -> u8 {
        self.framework.state.configuration
    }

    fn interfaces(&self) -> InterfaceInfo {
        self.framework.interfaces()
    }

    fn table(&self) -> EpTable {
        self.framework.table()
    }

    fn perform(&mut self, alloc: Global, transfer: &Transfer) -> Result<Option<Outcome>, Memory> {
        if transfer.setup.is_some() {
            let outcome = self.framework.control(alloc, transfer)?;
            if is_done_change(transfer, &outcome) {
                self.function = F::first(alloc);
            }
            return Ok(Some(outcome));
        }
        if !self.framework.is_running(transfer.ep) {
            return Ok(Some(stall(alloc)));
        }
        self.function.perform(alloc, transfer)
    }

    fn offer(&mut self, alloc: Global, ep: EpAddr) -> Result<Option<StreamPacket>, Memory> {
        if !self.framework.is_running(ep) {
            return Ok(None);
        }
        self.function.offer(alloc, ep)
    }

    ghost lawful = { lawful F.described F.lawful };
}
