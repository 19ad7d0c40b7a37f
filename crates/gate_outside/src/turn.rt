//! What a side's link gives, poll by poll.

use usb_base::{Bytes, List};

/// What a poll gave.
#[derive(Clone, Copy, PartialEq, Eq)]
pub enum Polled {
    /// So many bytes, at least one, which stand at the front of the buffer.
    Took(usize),
    /// Nothing yet. The link stays up.
    NotYet,
    /// The peer has closed the link, which is down from now on.
    Ended,
    /// The link failed, and stays up until it is closed.
    Failed,
}

/// What a scripted link gives next.
#[derive(Drop)]
pub enum Turn {
    /// These bytes, in as many polls as the buffers need. An empty piece is passed over.
    Piece(Bytes),
    /// One poll that gives nothing yet.
    Wait,
    /// One poll that fails.
    Fail,
}

/// The turns of a link, in order. A script that has come to its end has ended the link.
pub type Script = List<Turn>;

/// The scripts of clients that come one after the other.
pub type Scripts = List<Script>;
