//! Faults of the outside.

use std::error::Error;
use std::fmt;

/// A call to the outside failed. The count of faults of what was called has risen.
#[derive(Clone, Copy, Debug, PartialEq, Eq)]
pub struct Failed;

impl fmt::Display for Failed {
    fn fmt<W: fmt::Write>(&self, f: &mut fmt::Formatter<W>) -> fmt::Result {
        f.write_str("a call to the outside failed")
    }
}

impl Error for Failed {}
