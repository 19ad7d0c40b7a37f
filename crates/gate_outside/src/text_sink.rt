//! A sink in memory.

ghost use Rattle.std.specs.Prelude.{◌≡◌, ◌<◌, length, IfOk, [], take};
ghost use Rattle.std.specs.Io.{WritesAtMost};
ghost use Rattle.std.specs.Io.KnownBytes.{WriteAppends};
ghost use Rattle.gate_outside.specs.Faults.{HasCause};

use crate::copy::append_front;
use crate::fault::Failed;
use crate::fault_plan::FaultPlan;
use crate::sink::Sink;
use std::alloc::Global;
use std::marker::Model;
use usb_base::Memory;

/// Holds what is written to it, as far as it has room. Chosen calls fail. It takes its memory at once.
#[derive(Drop)]
pub struct TextSink {
    space: Vec<u8>,
    used: usize,
    piece: usize,
    plan: FaultPlan,
}

impl Model for TextSink {
    ghost use Rattle.std.specs.Prelude.{◌<◌, ◌≤◌, ◌-◌, length, take};
    ghost use Rattle.gate_outside.specs.Text.{Room};

    ghost Value = { Room };

    ghost view = { λ sink. record { held = take sink.used sink.space.items; free = length sink.space.items - sink.used; piece = sink.piece; plan = sink.plan } };

    ghost invariant = { λ sink. (sink.used ≤ length sink.space.items) × (0 < sink.piece) };
}

impl TextSink {
    ghost use Rattle.gate_outside.specs.Plan.{fresh};

    /// A sink with room for `room` bytes that takes at most `piece` bytes a write. Calls are counted from 0.
    /// Exactly those fail whose number is in `fails`, and those that find no room.
    pub fn make(alloc: Global, room: usize, piece: usize, fails: &[u64]) -> Result<TextSink, Memory>
        requires { 0 < piece }
        ensures held { IfOk result (λ sink. sink.held ≡ []) }
        ensures free { IfOk result (λ sink. sink.free ≡ room) }
        ensures piece { IfOk result (λ sink. sink.piece ≡ piece) }
        ensures plan { IfOk result (λ sink. sink.plan ≡ fresh fails.now) }
    {
        let plan = FaultPlan::make(alloc, fails)?;
        let space = vec![in alloc; 0; room]?;
        Ok(TextSink {
            space,
            used: 0,
            piece,
            plan,
        })
    }

    /// The bytes it holds.
    pub fn held(&self) -> &[u8]
        ensures { result.now ≡ self.now.held }
    {
        &self.space[..self.used]
    }
}

impl Sink for TextSink {
    ghost use Rattle.std.specs.Prelude.{Some};
    ghost use Rattle.gate_outside.specs.Text.{RoomWrites};

    ghost contents = { λ sink. Some sink.held };

    ghost faults = { λ sink. sink.plan.faults };

    ghost write_gives = { λ old piece answer new. RoomWrites answer piece old new };

    fn write(&mut self, piece: &[u8]) -> Result<usize, Failed>
        requires { 0 < length piece.now }
        ensures bound { WritesAtMost result piece.now }
        ensures some { IfOk result (λ n. 0 < n) }
        ensures bytes { WriteAppends (Some self.old.held) (Some self.new.held) result piece.now }
        ensures cause { HasCause self.old.plan.faults self.new.plan.faults result }
        ensures exact { RoomWrites result piece.now self.old self.new }
    {
        if let Err(failed) = self.plan.call() {
            return Err(failed);
        }
        if self.used == self.space.len() {
            return Err(self.plan.fail());
        }
        let n = append_front(piece, self.piece, &mut self.space, self.used);
        self.used += n;
        Ok(n)
    }
}
