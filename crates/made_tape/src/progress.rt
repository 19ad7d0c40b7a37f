//! How far a made tape has come.

ghost use Rattle.std.specs.Prelude.{◌≡◌, []};
ghost use Rattle.made_tape.specs.Rounds.{made_lines};
ghost use Rattle.made_tape.specs.inner.Left.{lines_left};

use crate::task::{Task, next_number, opening, tasks};

/// How far a made tape has come.
#[derive(Clone, Copy)]
pub struct Progress {
    /// What is still to be done in this round.
    pub tasks: &'static [Task],
    /// The round, counted from 1; 0 is what comes before the first.
    pub round: u16,
    /// The round's number.
    pub number: u32,
    /// How many rounds there are.
    pub count: u16,
}

impl Progress {
    /// Nothing has been said yet.
    pub fn start(count: u16) -> Progress
        ensures { lines_left result ≡ made_lines count }
    {
        Progress {
            tasks: opening(),
            round: 0,
            number: u32::from(count),
            count,
        }
    }

    /// Begins the next round where this one is done, if there is one.
    pub fn go_on(&mut self)
        ensures same { lines_left self.new ≡ lines_left self.old }
        ensures done { self.new.tasks.now ≡ [] → lines_left self.new ≡ [] }
    {
        if self.tasks.is_empty() && self.round < self.count {
            self.round += 1;
            self.number = next_number(self.number);
            self.tasks = tasks(self.number);
        }
    }
}
