//! The pace at which a link is polled that has nothing to give.

ghost use Rattle.std.specs.Prelude.{◌≡◌, ◌+◌, Option};
ghost use Rattle.std.specs.Duration.{as_nanos};
ghost use Rattle.std.specs.declared.time.Duration.{Duration as Time};
ghost use Rattle.gate_sockets.specs.Pace.{next_due, IsLeft, IsLeftBy};

use crate::limits::MADE_UP;
use crate::network::Network;
use std::time::Duration;

/// A poll that finds nothing ends an interval, one after another.
#[derive(Clone, Copy)]
pub(crate) struct Pace {
    interval: Duration,
    /// When the interval ends that has begun, by the clock.
    due: Duration,
}

impl Pace {
    pub(crate) fn new(interval: Duration) -> Pace
        ensures { result.interval ≡ interval }
    {
        Pace {
            interval,
            due: Duration::ZERO,
        }
    }

    /// How long it is to the end of the interval, and never longer than one. Where that has ended the next one begins.
    /// Where the system tells no time it is an interval.
    pub(crate) fn left<N: Network>(&mut self, network: &N) -> Duration
        ensures interval { self.new.interval ≡ self.old.interval }
        ensures left { (time : Option Time) × (N.time_gives time × IsLeftBy time (as_nanos result) (as_nanos self.old.interval) (as_nanos self.old.due) (as_nanos self.new.due)) }
    {
        match network.time() {
            Some(now) => self.left_at(now),
            None => self.interval,
        }
    }

    /// The same at this time.
    fn left_at(&mut self, now: Duration) -> Duration
        ensures interval { self.new.interval ≡ self.old.interval }
        ensures left { IsLeft (as_nanos now) (as_nanos result) (as_nanos self.old.interval) (as_nanos self.old.due) (as_nanos self.new.due) }
    {
        if let Some(late) = now.checked_sub(self.due) {
            self.due = self.next(late);
        }
        let left = self.due.saturating_sub(now);
        match left.checked_sub(self.interval) {
            Some(_) => self.interval,
            None => left,
        }
    }

    /// When the next interval ends, where the last one's end is so long ago.
    fn next(&self, late: Duration) -> Duration
        ensures { as_nanos result ≡ next_due (as_nanos self.now.interval) (as_nanos self.now.due) (as_nanos self.now.due + as_nanos late) }
    {
        let most = self.interval.saturating_mul(MADE_UP);
        let given_up = late.saturating_sub(most);
        let begun = self.due.saturating_add(given_up);
        begun.saturating_add(self.interval)
    }
}
