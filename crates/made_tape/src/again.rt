//! The law that a made tape is read again.

ghost use Rattle.std.specs.Prelude.{◌≤◌};
ghost use Rattle.made_tape.specs.declared.made.TheConstants.{MOST_ROUNDS};
ghost use Rattle.made_tape.specs.Again.{TapeAgain};
ghost use Rattle.made_tape.specs.Rounds.{made_lines};

/// A law: each line of a made tape is read again, and says what was written.
pub fn read_again(count: u16)
    requires { count ≤ MOST_ROUNDS }
    ensures { TapeAgain (made_lines count) }
{}
