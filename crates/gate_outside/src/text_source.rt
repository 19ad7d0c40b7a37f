//! A source in memory.

ghost use Rattle.std.specs.Prelude.{◌≡◌, ◌<◌, length, IfOk};
ghost use Rattle.std.specs.Io.{ReadsAtMost};
ghost use Rattle.std.specs.Io.KnownBytes.{ReadConsumes};
ghost use Rattle.gate_outside.specs.Faults.{HasCause};

use crate::copy::copy_front;
use crate::fault::Failed;
use crate::fault_plan::FaultPlan;
use crate::source::Source;
use std::alloc::Global;
use std::marker::Model;
use usb_base::Memory;

/// A text that is read in pieces. Chosen calls fail.
#[derive(Drop)]
pub struct TextSource {
    text: Vec<u8>,
    at: usize,
    piece: usize,
    plan: FaultPlan,
}

impl Model for TextSource {
    ghost use Rattle.std.specs.Prelude.{◌<◌, ◌≤◌, length, drop};
    ghost use Rattle.gate_outside.specs.Text.{Text};

    ghost Value = { Text };

    ghost view = { λ source. record { left = drop source.at source.text.items; piece = source.piece; plan = source.plan } };

    ghost invariant = { λ source. (source.at ≤ length source.text.items) × (0 < source.piece) };
}

impl TextSource {
    ghost use Rattle.gate_outside.specs.Plan.{fresh};

    /// A source of `text` that gives at most `piece` bytes a read. Calls are counted from 0, and exactly those
    /// whose number is in `fails` fail.
    pub fn make(
        alloc: Global,
        text: &[u8],
        piece: usize,
        fails: &[u64],
    ) -> Result<TextSource, Memory>
        requires { 0 < piece }
        ensures left { IfOk result (λ source. source.left ≡ text.now) }
        ensures piece { IfOk result (λ source. source.piece ≡ piece) }
        ensures plan { IfOk result (λ source. source.plan ≡ fresh fails.now) }
    {
        let plan = FaultPlan::make(alloc, fails)?;
        let text = text.to_vec(alloc)?;
        Ok(TextSource {
            text,
            at: 0,
            piece,
            plan,
        })
    }
}

impl Source for TextSource {
    ghost use Rattle.std.specs.Prelude.{Some};
    ghost use Rattle.gate_outside.specs.Text.{TextReads};

    ghost remaining = { λ source. Some source.left };

    ghost faults = { λ source. source.plan.faults };

    ghost read_gives = { λ old buf answer new. TextReads answer (length buf) old new };

    fn read(&mut self, buf: &mut [u8]) -> Result<usize, Failed>
        requires { 0 < length buf.old }
        ensures bound { ReadsAtMost result buf.new }
        ensures bytes { ReadConsumes (Some self.old.left) (Some self.new.left) result buf.new }
        ensures cause { HasCause self.old.plan.faults self.new.plan.faults result }
        ensures exact { TextReads result (length buf.new) self.old self.new }
    {
        if let Err(failed) = self.plan.call() {
            return Err(failed);
        }
        let n = copy_front(&self.text[self.at..], self.piece, buf);
        self.at += n;
        Ok(n)
    }
}
