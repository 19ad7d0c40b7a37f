//! Command status wrappers (Bulk-Only Transport, 5.2).

ghost use Rattle.std.specs.Prelude.{◌≡◌, length, IfOk};
ghost use Rattle.disk_gadget.specs.Reports.{status_bytes, status_code, status_size};

use std::alloc::Global;
use usb_base::{Bytes, Memory, push_le_u32};

/// dCSWSignature, `USBS`.
const SIGNATURE: u32 = 0x5342_5355;

/// bCSWStatus.
#[derive(Clone, Copy)]
pub enum Status {
    Passed,
    Failed,
    PhaseError,
}

impl Status {
    /// Its byte.
    pub fn code(self) -> u8
        ensures { result ≡ status_code self }
    {
        match self {
            Status::Passed => 0,
            Status::Failed => 1,
            Status::PhaseError => 2,
        }
    }
}

/// How a command ended.
#[derive(Clone, Copy)]
pub struct Report {
    /// dCSWTag: that of its wrapper.
    pub tag: u32,
    /// dCSWDataResidue: how many of the bytes that its wrapper tells weren't given, or weren't used.
    pub residue: u32,
    pub status: Status,
}

impl Report {
    /// Its bytes.
    pub fn bytes(&self, alloc: Global) -> Result<Bytes, Memory>
        ensures bytes { IfOk result (λ bytes. bytes ≡ status_bytes self.now) }
        ensures length { IfOk result (λ bytes. length bytes ≡ status_size) }
    {
        let mut bytes = Bytes::new(alloc);
        push_le_u32(&mut bytes, SIGNATURE)?;
        push_le_u32(&mut bytes, self.tag)?;
        push_le_u32(&mut bytes, self.residue)?;
        bytes.push(self.status.code())?;
        Ok(bytes)
    }
}
