//! What devices have in common that answer endpoint 0 by their descriptors: those, and the answers.

ghost use Rattle.std.specs.Prelude.{◌≡◌, ◌&&◌, ◌<◌, length, IsSome, IfOk, OnOk, OnErr, None};
ghost use Rattle.usb_base.specs.Status.{is_success};
ghost use Rattle.chapter9.specs.Descriptors.{wrong_place};
ghost use Rattle.chapter9.specs.State.{unconfigured};
ghost use Rattle.chapter9.specs.Standard.{outcome_of, state_after};
ghost use Rattle.chapter9.specs.Table.{table_of};
ghost use Rattle.model_device.specs.Device.{identity_of, interfaces_of, is_running};
ghost use Rattle.model_device.specs.Inside.{HasSet};
ghost use Rattle.model_device.specs.Transfer.{asks_change};

use chapter9::{DescriptorSet, DevState, Parts, WalkError, class_of, standard, table_of, walk};
use control_route::{is_change, route_of};
use redir_wire::{Connect, INTERFACE_CELLS, InterfaceInfo};
use std::alloc::Global;
use usb_base::{EpAddr, EpKind, EpTable, Memory, Outcome, Speed, Transfer, le_u16_at};

/// USB's device framework (USB 2.0, chapter 9): a device's descriptors, with the parts of its configuration, and its
/// state.
#[derive(Drop)]
pub struct Framework {
    pub set: DescriptorSet,
    /// The parts of the set's configuration.
    pub parts: Parts,
    pub state: DevState,
}

impl Framework {
    /// That of a device with these descriptors, as it is before a configuration is set.
    pub fn make(alloc: Global, set: DescriptorSet) -> Result<Framework, Memory>
        requires { wrong_place set.config ≡ None }
        ensures set { IfOk result (HasSet set) }
        ensures state { IfOk result (λ made. made.state ≡ unconfigured) }
    {
        let parts = match walk(alloc, set.config.as_slice()) {
            Ok(parts) => parts,
            Err(WalkError::Memory(memory)) => return Err(memory),
            Err(WalkError::Bad { .. }) => unreachable!(),
        };
        Ok(Framework {
            set,
            parts,
            state: DevState::unconfigured(),
        })
    }

    /// What it tells as it is plugged in: the fields of its device descriptor, and its speed.
    pub fn identity(&self, speed: Speed) -> Connect
        ensures { result ≡ identity_of speed self.now.set }
    {
        let device = &self.set.device;
        Connect {
            speed: speed.to_redir(),
            class: device[4],
            subclass: device[5],
            protocol: device[6],
            vendor: le_u16_at(device, 8),
            product: le_u16_at(device, 10),
            version: le_u16_at(device, 12),
        }
    }

    /// The endpoints that it has.
    pub fn table(&self) -> EpTable
        ensures { result ≡ table_of self.now.parts self.now.state }
    {
        table_of(&self.parts, &self.state)
    }

    /// The one interface that it has where a configuration is set.
    pub fn interfaces(&self) -> InterfaceInfo
        ensures { result ≡ interfaces_of self.now.parts self.now.state }
    {
        let mut info = InterfaceInfo {
            count: 0,
            interface: [0; INTERFACE_CELLS],
            class: [0; INTERFACE_CELLS],
            subclass: [0; INTERFACE_CELLS],
            protocol: [0; INTERFACE_CELLS],
        };
        if self.state.is_configured() {
            info.count = 1;
            if let Some(class) = class_of(&self.parts, self.state.alt) {
                info.class[0] = class.class;
                info.subclass[0] = class.subclass;
                info.protocol[0] = class.protocol;
            }
        }
        info
    }

    /// Whether the endpoint is there and isn't halted.
    pub fn is_running(&self, ep: EpAddr) -> bool
        ensures { result ≡ is_running self.now.parts self.now.state ep }
    {
        self.table().row(ep).kind != EpKind::Invalid && !self.state.is_halted(ep)
    }

    /// Answers a transfer of endpoint 0. For want of memory, which an answer with bytes alone takes, nothing changes.
    pub fn control(&mut self, alloc: Global, transfer: &Transfer) -> Result<Outcome, Memory>
        requires { IsSome transfer.now.setup }
        ensures outcome { IfOk result (λ outcome. outcome ≡ outcome_of self.old.set self.old.parts self.old.state transfer.now) }
        ensures state { OnOk result (self.new ≡ record self.old { state = state_after self.old.parts self.old.state transfer.now }) }
        ensures err { OnErr result (self.new ≡ self.old) }
        ensures thrifty { OnErr result (0 < length (outcome_of self.old.set self.old.parts self.old.state transfer.now).body) }
    {
        standard(alloc, &self.set, &self.parts, &mut self.state, transfer)
    }
}

/// Whether a transfer was a change that succeeded.
pub fn is_done_change(transfer: &Transfer, outcome: &Outcome) -> bool
    ensures { result ≡ (asks_change transfer.now && is_success outcome.now.status) }
{
    match &transfer.setup {
        Some(setup) => { is_change(&route_of(setup)) && outcome.status.is_success() }
        None => false,
    }
}
