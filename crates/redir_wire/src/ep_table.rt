//! The table of endpoints that an ep_info tells.

ghost use Rattle.std.specs.Prelude.{◌≡◌};
ghost use Rattle.redir_wire.specs.EpTable.{table_of};

use crate::packet::EpInfo;
use usb_base::{ENDPOINTS, EpKind, EpRow, EpTable};

impl EpInfo {
    /// The table of the device's endpoints, by their indices.
    pub fn table(&self) -> EpTable
        ensures { result ≡ table_of self.now }
    {
        let mut table = EpTable::none();
        for index in 0..ENDPOINTS {
            table.rows[index] = EpRow {
                kind: EpKind::from_byte(self.kinds[index]),
                interval: self.interval[index],
                interface: self.interface[index],
                max_packet: self.max_packet[index],
            };
        }
        table
    }
}
