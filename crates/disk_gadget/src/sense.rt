//! Why a command failed (SPC-4, 4.5).

ghost use Rattle.std.specs.Prelude.{◌≡◌};
ghost use Rattle.disk_gadget.specs.Reports.{sense_bytes};

/// An additional sense code. Each goes with the sense key ILLEGAL REQUEST.
#[derive(Clone, Copy)]
pub enum Sense {
    /// INVALID COMMAND OPERATION CODE.
    InvalidCommand,
    /// LOGICAL BLOCK ADDRESS OUT OF RANGE.
    OutOfRange,
    /// INVALID FIELD IN CDB.
    InvalidField,
}

/// Sense data in the fixed format.
pub fn sense_bytes(sense: Option<Sense>) -> [u8; 18]
    ensures { result ≡ sense_bytes sense }
{
    let (key, code) = match sense {
        None => (0, 0),
        Some(Sense::InvalidCommand) => (5, 0x20),
        Some(Sense::OutOfRange) => (5, 0x21),
        Some(Sense::InvalidField) => (5, 0x24),
    };
    [
        0x70, 0, key, 0, 0, 0, 0, 0x0A, 0, 0, 0, 0, code, 0, 0, 0, 0, 0,
    ]
}
