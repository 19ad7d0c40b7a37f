//! What the host has told of its device.

ghost use Rattle.std.specs.Prelude.{◌≡◌};
ghost use Rattle.redir_data.specs.declared.packet.RedirPacket.TheVariants.{Plain};
ghost use Rattle.gate_history.specs.state.Facts.{no_facts, tell};
ghost use Rattle.gate_history.specs.step.Meaning.{fact_of};

use redir_wire::{Connect, InterfaceInfo, RedirControl};
use usb_base::{EpTable, UsbStatus};

/// What the host has told of its device since the device was last lost: of each fact the last.
#[derive(Clone, Copy)]
pub struct Facts {
    /// The device, which is there after its device_connect.
    pub connect: Option<Connect>,
    pub interfaces: Option<InterfaceInfo>,
    /// Its endpoints, all invalid before they are told.
    pub table: EpTable,
    /// The value of the configuration, 0 before one is told.
    pub configuration: u8,
}

impl Facts {
    /// Those of no device.
    pub fn none() -> Facts
        ensures { result ≡ no_facts }
    {
        Facts {
            connect: None,
            interfaces: None,
            table: EpTable::none(),
            configuration: 0,
        }
    }

    /// Takes in the fact that a packet of the host tells, if it tells one.
    pub fn tell(&mut self, packet: &RedirControl)
        ensures { self.new ≡ tell self.old (fact_of (Plain packet.now)) }
    {
        match packet {
            RedirControl::Connect(connect) => self.connect = Some(*connect),
            RedirControl::InterfaceInfo(info) => self.interfaces = Some(*info.get()),
            RedirControl::EpInfo(info) => self.table = info.get().table(),
            RedirControl::ConfigurationStatus {
                status,
                configuration,
            } if UsbStatus::from_byte(*status).is_success() => self.configuration = *configuration,
            _ => {}
        }
    }
}
