//! How a transfer ended, in both protocols.

ghost use Rattle.std.specs.Prelude.{◌≡◌, ℕ};
ghost use Rattle.usb_base.specs.Status.{status_of, status_byte, errno_of, is_success};

use crate::errno;

/// How a transfer ended, as usbredir tells it (protocol description, section "usb_redir status codes").
#[derive(Clone, Copy, PartialEq, Eq)]
pub enum UsbStatus {
    Success,
    /// It was cancelled by whoever asked for it.
    Cancelled,
    /// The request wasn't one that can be carried out.
    Inval,
    IoError,
    Stall,
    Timeout,
    /// The device sent more than was asked for.
    Babble,
    /// A byte from 7 to 255, which has no name.
    Other(u8),
}

impl UsbStatus {
    /// The status of a byte.
    pub fn from_byte(byte: u8) -> UsbStatus
        ensures { result ≡ status_of byte }
    {
        match byte {
            0 => UsbStatus::Success,
            1 => UsbStatus::Cancelled,
            2 => UsbStatus::Inval,
            3 => UsbStatus::IoError,
            4 => UsbStatus::Stall,
            5 => UsbStatus::Timeout,
            6 => UsbStatus::Babble,
            other => UsbStatus::Other(other),
        }
    }

    /// The byte of a status.
    pub fn to_byte(self) -> u8
        ensures { result ≡ status_byte self }
    {
        match self {
            UsbStatus::Success => 0,
            UsbStatus::Cancelled => 1,
            UsbStatus::Inval => 2,
            UsbStatus::IoError => 3,
            UsbStatus::Stall => 4,
            UsbStatus::Timeout => 5,
            UsbStatus::Babble => 6,
            UsbStatus::Other(other) => other,
        }
    }

    /// Whether it went well.
    pub fn is_success(self) -> bool
        ensures { result ≡ is_success self }
    {
        matches!(self, UsbStatus::Success)
    }

    /// The status that a USB/IP answer has: 0, or the negative of a Linux error number.
    pub fn errno(self) -> i32
        ensures { result ≡ errno_of self }
    {
        match self {
            UsbStatus::Success => 0,
            UsbStatus::Cancelled => errno::ECONNRESET,
            UsbStatus::Inval => errno::EINVAL,
            UsbStatus::IoError | UsbStatus::Other(_) => errno::EPROTO,
            UsbStatus::Stall => errno::EPIPE,
            UsbStatus::Timeout => errno::ETIMEDOUT,
            UsbStatus::Babble => errno::EOVERFLOW,
        }
    }
}

/// A law: a byte is that of its status again.
pub fn status_bytes_again()
    ensures { (byte : ℕ) → status_byte (status_of byte) ≡ byte }
{}
