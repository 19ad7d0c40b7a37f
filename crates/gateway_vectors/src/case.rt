//! What is run.

use crate::how::How;

/// The words of a run, the lines that it reads, and how it goes.
#[derive(Clone, Copy)]
pub struct Case<'a> {
    pub words: &'a [&'a str],
    /// The lines of its tape, or of what its links give.
    pub lines: &'a str,
    pub how: &'a How,
}
