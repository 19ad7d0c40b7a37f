//! Polling a side's link.

ghost use Rattle.std.specs.Prelude.{◌≡◌, ℕ, List, [], length, IsTrue};
ghost use Rattle.bridge_run.specs.declared.course.polling.TheConstants.{POLL_LIMIT as LIMIT};
ghost use Rattle.bridge_run.specs.inner.Polling.{IsPolled, Brings};

use crate::events::sent::Sent;
use crate::served::Served;
use gate_outside::{Doors, Polled, Side};
use usb_base::{Incoming, Memory};

/// How many bytes a poll takes at most.
pub const POLL_LIMIT: usize = 65_536;

/// What a poll has brought.
#[derive(Clone, Copy)]
pub struct Came {
    pub polled: Polled,
    /// What became of the bytes where what is served has taken them: then they stand in no buffer.
    pub taken: Option<Result<(), Memory>>,
}

/// Polls the side's link. Where nothing is recorded, what is served takes the bytes as they come, straight into its
/// memory, and what that sends is put to `sent`; else, or where it can't, they come into the buffer.
pub fn poll<C: Served, D: Doors>(
    served: &mut C,
    side: Side,
    buf: &mut [u8],
    doors: &mut D,
    taped: bool,
    sent: &mut Sent,
) -> Came
    requires sent { sent.old.to_client ≡ [] }
    requires up { IsTrue (D.link doors.old side).up }
    requires room { length buf.old ≡ LIMIT }
    ensures { (room : List ℕ) × IsPolled D.link D.door D.call_gives side LIMIT result.polled room doors.old doors.new
        × Brings C.stands C.runs_out C.sends side taped result.polled result.taken room buf.new served.old served.new sent.old sent.new }
{
    if !taped {
        let mut link = LinkReader::new(doors, side);
        if let Some(taken) = served.take_from(side, POLL_LIMIT, &mut link, sent) {
            return Came {
                polled: link.polled,
                taken: Some(taken),
            };
        }
    }
    Came {
        polled: doors.poll(side, buf),
        taken: None,
    }
}

/// A side's link, of which bytes are read, and what the last poll of it gave.
#[derive(Drop)]
struct LinkReader<'a, D> {
    doors: &'a mut D,
    side: Side,
    polled: Polled,
}

impl<'a, D: Doors> LinkReader<'a, D> {
    fn new(doors: &'a mut D, side: Side) -> LinkReader<'a, D>
        ensures { (result.doors.ghost_name ≡ doors.entry.ghost_name) × (result.doors.now ≡ doors.old) × (result.side ≡ side) }
    {
        LinkReader {
            doors,
            side,
            polled: Polled::NotYet,
        }
    }
}

impl<'a, D: Doors> Incoming for LinkReader<'a, D> {
    ghost use Rattle.std.specs.Prelude.{◌≡◌, ◌<◌, length, IsTrue};
    ghost use Rattle.gate_outside.specs.Turns.{taken};
    ghost use Rattle.bridge_run.specs.inner.Polling.{IsPolled};

    ghost can_read = { λ reader room. IsTrue (D.link reader.doors.now reader.side).up × (0 < room) };

    ghost read_gives = { λ old count room new. (new.doors.ghost_name ≡ old.doors.ghost_name) × (count ≡ taken new.polled) × IsPolled D.link D.door D.call_gives old.side (length room) new.polled room old.doors.now new.doors.now };

    fn read_into(&mut self, room: &mut [u8]) -> usize {
        self.polled = self.doors.poll(self.side, room);
        match self.polled {
            Polled::Took(n) => n,
            Polled::NotYet | Polled::Ended | Polled::Failed => 0,
        }
    }
}
