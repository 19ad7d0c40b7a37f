//! The lines of a made tape, one after another.

ghost use Rattle.std.specs.Prelude.{◌≡◌, ◌∷◌, [], IfOk, OnErr, MatchOption, IsSomeAnd, true};
ghost use Rattle.std.specs.List.{slice_get};
ghost use Rattle.packet_show.specs.Tape.{model_has_bytes};
ghost use Rattle.made_tape.specs.Lines.{tape_text};
ghost use Rattle.made_tape.specs.Rounds.{made_lines};

use crate::line::push_line;
use crate::progress::Progress;
use crate::task::said;
use packet_show::ModelLine;
use std::alloc::Global;
use std::marker::Model;
use usb_base::{Bytes, Memory};

/// How many rounds a tape that the commands make has at most.
pub const MOST_ROUNDS: u16 = 1000;

/// A made tape, seen as the lines that are still to come.
#[derive(Drop)]
pub struct MadeTape {
    progress: Progress,
}

impl Model for MadeTape {
    ghost use Rattle.std.specs.Prelude.{List};
    ghost use Rattle.packet_show.specs.declared.tape.ModelLine.{ModelLine as Line};
    ghost use Rattle.made_tape.specs.inner.Left.{lines_left};

    ghost Value = { List Line };

    ghost view = { λ tape. lines_left tape.progress };
}

impl MadeTape {
    /// The tape of a number, with so many rounds.
    pub fn new(count: u16) -> MadeTape
        ensures { result ≡ made_lines count }
    {
        MadeTape {
            progress: Progress::start(count),
        }
    }

    /// The next line, or none behind the last one. For want of memory, which only a piece takes, none is passed over.
    pub fn next_line(&mut self, alloc: Global) -> Result<Option<ModelLine>, Memory>
        ensures line { IfOk result (λ line. MatchOption line (self.old ≡ []) (λ said. self.old ≡ said ∷ self.new)) }
        ensures same { OnErr result (self.new ≡ self.old) }
        ensures wants { OnErr result (IsSomeAnd (slice_get self.old 0) (λ said. model_has_bytes said ≡ true)) }
    {
        self.progress.go_on();
        let Progress {
            tasks: [task, rest @ ..],
            round,
            number,
            ..
        } = self.progress
        else {
            return Ok(None);
        };
        let line = said(alloc, round, number, *task)?;
        self.progress.tasks = rest;
        Ok(Some(line))
    }
}

/// The text of the tape of a number.
pub fn made_text(alloc: Global, count: u16) -> Result<Bytes, Memory>
    ensures { IfOk result (λ text. text ≡ tape_text (made_lines count)) }
{
    let mut tape = MadeTape::new(count);
    let mut text = Bytes::new(alloc);
    'lines: while let Some(line) = tape.next_line(alloc)? {
        push_line(&line, &mut text)?;
    }
    Ok(text)
}
