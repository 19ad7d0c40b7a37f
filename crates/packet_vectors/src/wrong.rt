//! Why the rows aren't taken to the end.

use std::alloc::AllocError;
use std::io;
use usb_base::Memory;

/// No memory was left, or the standard streams failed.
#[derive(Clone, Copy, Debug)]
pub struct Wrong;

impl From<Memory> for Wrong {
    fn from(_error: Memory) -> Self {
        Wrong
    }
}

impl From<AllocError> for Wrong {
    fn from(_error: AllocError) -> Self {
        Wrong
    }
}

impl From<io::Error> for Wrong {
    fn from(_error: io::Error) -> Self {
        Wrong
    }
}
