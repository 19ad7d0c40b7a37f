//! The requests of the class on endpoint 0 (Bulk-Only Transport, 3).

ghost use Rattle.std.specs.Prelude.{◌≡◌};
ghost use Rattle.disk_gadget.specs.DiskStep.{class_request};

use usb_base::Setup;

/// A request that mass storage adds to those of every device.
#[derive(Clone, Copy)]
pub enum ClassRequest {
    /// Bulk-Only Mass Storage Reset (3.1).
    Reset,
    /// Get Max LUN (3.2).
    MaxLun,
}

impl ClassRequest {
    /// The request that a setup is, if it is one of the class.
    pub fn of(setup: &Setup) -> Option<ClassRequest>
        ensures { result ≡ class_request setup.now }
    {
        match (setup.kind, setup.request) {
            (0x21, 0xFF) if setup.length == 0 => Some(ClassRequest::Reset),
            (0xA1, 0xFE) => Some(ClassRequest::MaxLun),
            _ => None,
        }
    }
}
