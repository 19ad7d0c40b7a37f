//! An event, as the loop takes it.

ghost use Rattle.std.specs.Prelude.{◌≡◌, ℕ, List};
ghost use Rattle.bridge_run.specs.course.Calls.{ends_next as has_end_next};
ghost use Rattle.bridge_run.specs.inner.Coming.{event_with};

use crate::events::event::LinkEvent;
use usb_base::{Memory, Side};

/// An event that comes.
#[derive(Clone, Copy)]
pub enum Coming<'a> {
    /// What is served is still to take it.
    Event(LinkEvent<'a>),
    /// The side's next piece, which what is served has taken, or has run out of memory within. Its bytes stand in no
    /// buffer, and nothing is recorded.
    Taken(Side, Result<(), Memory>),
}

/// Whether a client's end comes behind the event that closed its link.
pub fn ends_next(coming: Coming, dropped: bool) -> bool
    ensures { (piece : List ℕ) → result ≡ has_end_next (event_with piece coming.entry) dropped }
{
    match coming {
        Coming::Event(LinkEvent::SideEnd(Side::Client)) => false,
        _ => dropped,
    }
}
