//! Reads scripts, one after the other.

ghost use Rattle.std.specs.Prelude.{◌≡◌, ◌<◌, ◌≤◌, ◌+◌, [], ◌∷◌, length, take, drop, MatchOption};
ghost use Rattle.gate_outside.specs.Turns.{pending, answer, given, after, taken};
ghost use Rattle.gate_outside.specs.Reading.{current};

use crate::copy::copy_front;
use crate::turn::{Polled, Script, Scripts, Turn};
use std::marker::Model;

/// A place in a script: the turns before `at` have passed, and the turn there has given so many bytes.
#[derive(Clone, Copy)]
pub(crate) struct Place {
    at: usize,
    given: usize,
}

/// Gives the turns of a script, poll by poll, and then those of the next one that is begun.
#[derive(Drop)]
pub(crate) struct ScriptReader {
    scripts: Scripts,
    // How many scripts were begun. The last of these is read.
    begun: usize,
    place: Place,
}

impl Model for ScriptReader {
    ghost use Rattle.std.specs.Prelude.{◌≤◌, length, drop};
    ghost use Rattle.gate_outside.specs.Reading.{Reading, current, left, IsPlace};

    ghost Value = { Reading };

    ghost view = { λ reader. record { turns = left reader.place (current reader.begun reader.scripts); to_come = drop reader.begun reader.scripts } };

    ghost invariant = { λ reader. (reader.begun ≤ length reader.scripts) × IsPlace reader.place (current reader.begun reader.scripts) };
}

impl ScriptReader {
    ghost use Rattle.gate_outside.specs.Reading.{NextBegins};
    ghost use Rattle.gate_outside.specs.Doors.{GivesTurns, TookWithin};

    /// A reader that has begun no script.
    pub(crate) fn new(scripts: Scripts) -> ScriptReader
        ensures turns { result.turns ≡ [] }
        ensures to_come { result.to_come ≡ scripts }
    {
        ScriptReader {
            scripts,
            begun: 0,
            place: START,
        }
    }

    /// Begins the next script, and says whether there was one.
    pub(crate) fn begin(&mut self) -> bool
        ensures { NextBegins result self.old self.new }
    {
        if self.begun == self.scripts.len() {
            return false;
        }
        self.begun += 1;
        self.place = START;
        true
    }

    /// Takes the front turn, and passes over empty pieces before it.
    pub(crate) fn poll(&mut self, buf: &mut [u8]) -> Polled
        requires { 0 < length buf.old }
        ensures bound { TookWithin result buf.new }
        ensures gives { GivesTurns result buf.new self.old.turns }
        ensures moves { self.new ≡ record self.old { turns = after (length buf.new) (pending self.old.turns) } }
    {
        let turns = begun_script(self.scripts.as_slice(), self.begun);
        self.place.skip_empty(turns);
        self.place.take(turns, buf)
    }

    /// Passes over all turns that are left.
    pub(crate) fn skip(&mut self)
        ensures { self.new ≡ record self.old { turns = [] } }
    {
        let turns = begun_script(self.scripts.as_slice(), self.begun);
        self.place = Place {
            at: turns.len(),
            given: 0,
        };
    }
}

/// The script that was begun last, or none yet.
fn begun_script(scripts: &[Script], begun: usize) -> &[Turn]
    requires { begun ≤ length scripts.now }
    ensures { result.now ≡ current begun scripts.now }
{
    match begun {
        0 => &[],
        _ => scripts[begun - 1].as_slice(),
    }
}

/// The turn at this place of a script.
fn turn_at(turns: &[Turn], at: usize) -> Option<&Turn>
    ensures { MatchOption result (drop at turns.now ≡ []) (λ turn. (at < length turns.now) × (drop at turns.now ≡ turn.now ∷ drop (at + 1) turns.now)) }
{
    turns.get(at)
}

const START: Place = Place { at: 0, given: 0 };

impl Place {
    ghost use Rattle.gate_outside.specs.Reading.{left, IsPlace};

    /// Goes past pieces that are given whole.
    fn skip_empty(&mut self, turns: &[Turn])
        requires { IsPlace self.old turns.now }
        ensures place { IsPlace self.new turns.now }
        ensures left { left self.new turns.now ≡ pending (left self.old turns.now) }
    {
        while let Some(Turn::Piece(piece)) = turn_at(turns, self.at) {
            if self.given < piece.len() {
                return;
            }
            self.pass();
        }
    }

    /// Takes the turn here: as much of a piece as there is room for.
    fn take(&mut self, turns: &[Turn], buf: &mut [u8]) -> Polled
        requires { IsPlace self.old turns.now }
        ensures place { IsPlace self.new turns.now }
        ensures answers { result ≡ answer (length buf.new) (left self.old turns.now) }
        ensures bytes { take (taken result) buf.new ≡ given (length buf.new) (left self.old turns.now) }
        ensures left { left self.new turns.now ≡ after (length buf.new) (left self.old turns.now) }
    {
        match turn_at(turns, self.at) {
            None => Polled::Ended,
            Some(Turn::Piece(piece)) => {
                let n = copy_front(&piece.as_slice()[self.given..], buf.len(), buf);
                self.given += n;
                Polled::Took(n)
            }
            Some(Turn::Wait) => {
                self.pass();
                Polled::NotYet
            }
            Some(Turn::Fail) => {
                self.pass();
                Polled::Failed
            }
        }
    }

    /// Goes to the next turn.
    fn pass(&mut self)
        requires { self.old.at < usize.MAX }
        ensures { self.new ≡ record { at = self.old.at + 1; given = 0 } }
    {
        self.at += 1;
        self.given = 0;
    }
}
