//! What comes of a transfer, as every device has it.

ghost use Rattle.std.specs.Prelude.{◌≡◌, ◌<◌, ◌^◌, length};
ghost use Rattle.chapter9.specs.Standard.{ended, stall, success, taken};

use std::alloc::Global;
use usb_base::{Bytes, Outcome, UsbStatus};

/// It ended with this status, and moved nothing.
pub fn ended(alloc: Global, status: UsbStatus) -> Outcome
    ensures { result ≡ ended status }
{
    Outcome {
        status,
        done: 0,
        body: Bytes::new(alloc),
    }
}

/// It was refused (USB 2.0, 9.2.7).
pub fn stall(alloc: Global) -> Outcome
    ensures { result ≡ stall }
{
    ended(alloc, UsbStatus::Stall)
}

/// It gave the host these bytes.
pub fn success(body: Bytes) -> Outcome
    requires { length body < 2 ^ 32 }
    ensures { result ≡ success body }
{
    Outcome {
        status: UsbStatus::Success,
        done: body.len() as u32,
        body,
    }
}

/// It took so many bytes of the host.
pub fn taken(alloc: Global, count: u32) -> Outcome
    ensures { result ≡ taken count }
{
    Outcome {
        status: UsbStatus::Success,
        done: count,
        body: Bytes::new(alloc),
    }
}
