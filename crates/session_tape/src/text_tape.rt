//! A tape in memory.

ghost use Rattle.std.specs.Prelude.{◌≡◌, [], false, IfOk};
ghost use Rattle.session_tape.specs.Text.{told};

use crate::tape::{MakeTape, Tape, Unmade};
use gate_outside::{Failed, TextSink, write_all};
use std::alloc::Global;
use std::marker::Model;
use usb_base::Memory;

/// Holds what is written to it, as a `TextSink` does, once it is made. What `make` answers is chosen.
#[derive(Drop)]
pub struct TextTape {
    sink: TextSink,
    answer: Result<(), Unmade>,
    is_made: bool,
    faults: u64,
    there: u64,
}

impl Model for TextTape {
    ghost use Rattle.std.specs.Prelude.{◌≡◌, false, []};
    ghost use Rattle.session_tape.specs.Text.{Text};

    ghost Value = { Text };

    ghost view = { λ tape. record { held = tape.sink.held; answer = tape.answer; is_made = tape.is_made; faults = tape.faults; there = tape.there } };

    ghost invariant = { λ tape. tape.is_made ≡ false → tape.sink.held ≡ [] };
}

impl TextTape {
    /// A tape that isn't made, with room for `room` bytes. A piece is one write, and one more where only a front of it
    /// fits. Writes are counted from 0, and exactly those fail whose number is in `fails`, and those that find no room.
    pub fn new(
        alloc: Global,
        room: usize,
        answer: Result<(), Unmade>,
        fails: &[u64],
    ) -> Result<TextTape, Memory>
        ensures { IfOk result (λ tape. tape ≡ record { held = []; answer = answer; is_made = false; faults = 0; there = 0 }) }
    {
        let sink = TextSink::make(alloc, room, usize::MAX, fails)?;
        Ok(TextTape {
            sink,
            answer,
            is_made: false,
            faults: 0,
            there: 0,
        })
    }

    /// The bytes of the file.
    pub fn held(&self) -> &[u8]
        ensures { result.now ≡ self.now.held }
    {
        self.sink.held()
    }
}

impl Tape for TextTape {
    ghost use Rattle.session_tape.specs.Text.{told};
    ghost use Rattle.session_tape.specs.Tapes.{counts};

    ghost made = { λ tape. tape.is_made };

    ghost contents = { λ tape. told tape };

    ghost counts = { λ tape. counts tape.faults tape.there };

    fn is_made(&self) -> bool {
        self.is_made
    }

    fn put(&mut self, bytes: &[u8]) -> Result<(), Failed> {
        match write_all(&mut self.sink, bytes) {
            Ok(()) => Ok(()),
            Err(failed) => {
                self.faults = self.faults.saturating_add(1);
                Err(failed)
            }
        }
    }
}

impl MakeTape for TextTape {
    fn make(&mut self, _name: &str) -> Result<(), Unmade> {
        if self.is_made {
            self.there = self.there.saturating_add(1);
            return Err(Unmade::There);
        }
        match self.answer {
            Ok(()) => {
                self.is_made = true;
                Ok(())
            }
            Err(Unmade::There) => {
                self.there = self.there.saturating_add(1);
                Err(Unmade::There)
            }
            Err(Unmade::Failed) => {
                self.faults = self.faults.saturating_add(1);
                Err(Unmade::Failed)
            }
        }
    }
}
