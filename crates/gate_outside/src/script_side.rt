//! One side of the scripted doors.

ghost use Rattle.std.specs.Prelude.{◌≡◌, ◌<◌, [], length, IfOk};
ghost use Rattle.gate_outside.specs.Doors.{TookWithin};
ghost use Rattle.gate_outside.specs.Script.{idle_side, begun, Counted, Opened, Began, PolledScript, WroteScript};

use crate::copy::append_front;
use crate::fault::Failed;
use crate::fault_plan::FaultPlan;
use crate::script_reader::ScriptReader;
use crate::turn::{Polled, Scripts};
use std::alloc::Global;
use std::marker::Model;
use usb_base::Memory;

/// A link that gives the turns of scripts, and holds what is written to it as far as it has room.
#[derive(Drop)]
pub(crate) struct ScriptSide {
    up: bool,
    reader: ScriptReader,
    space: Vec<u8>,
    used: usize,
    idle: u64,
    plan: FaultPlan,
}

impl Model for ScriptSide {
    ghost use Rattle.std.specs.Prelude.{◌≤◌, ◌-◌, length, take};
    ghost use Rattle.gate_outside.specs.Script.{Scripted};

    ghost Value = { Scripted };

    ghost view = { λ side. record {
      up = side.up;
      turns = side.reader.turns;
      to_come = side.reader.to_come;
      written = take side.used side.space.items;
      free = length side.space.items - side.used;
      idle = side.idle;
      plan = side.plan;
    } };

    ghost invariant = { λ side. side.used ≤ length side.space.items };
}

impl ScriptSide {
    ghost use Rattle.gate_outside.specs.Script.{closed_side};
    ghost use Rattle.usb_base.specs.declared.side.Side.TheVariants.{Client, Host};

    /// A side of which no script has begun, with room for `room` bytes.
    pub(crate) fn make(
        alloc: Global,
        room: usize,
        scripts: Scripts,
        fails: &[u64],
    ) -> Result<ScriptSide, Memory>
        ensures { IfOk result (λ side. side ≡ idle_side [] scripts room fails.now) }
    {
        let plan = FaultPlan::make(alloc, fails)?;
        let space = vec![in alloc; 0; room]?;
        Ok(ScriptSide {
            up: false,
            reader: ScriptReader::new(scripts),
            space,
            used: 0,
            idle: 0,
            plan,
        })
    }

    /// Begins the first script, if there is one, before the link is up.
    pub(crate) fn begin(&mut self)
        ensures { self.new ≡ begun self.old }
    {
        self.reader.begin();
    }

    /// Counts a call that does nothing else.
    pub(crate) fn call(&mut self) -> Result<(), Failed>
        ensures { Counted result self.old self.new }
    {
        self.plan.call()
    }

    /// Brings the link up.
    pub(crate) fn open(&mut self) -> Result<(), Failed>
        ensures { Opened result self.old self.new }
    {
        self.plan.call()?;
        self.up = true;
        Ok(())
    }

    /// Brings the link up with the next script, while one is left.
    pub(crate) fn accept(&mut self) -> Result<bool, Failed>
        ensures { Began result self.old self.new }
    {
        self.plan.call()?;
        if self.reader.begin() {
            self.up = true;
            return Ok(true);
        }
        self.idle = self.idle.saturating_add(1);
        Ok(false)
    }

    /// Takes the front turn.
    pub(crate) fn poll(&mut self, buf: &mut [u8]) -> Polled
        requires { 0 < length buf.old }
        ensures bound { TookWithin result buf.new }
        ensures turn { PolledScript result buf.new self.old self.new }
    {
        if self.plan.call().is_err() {
            return Polled::Failed;
        }
        let polled = self.reader.poll(buf);
        match polled {
            Polled::Took(_) => {}
            Polled::NotYet => self.idle = self.idle.saturating_add(1),
            Polled::Ended => self.up = false,
            Polled::Failed => {
                let Failed = self.plan.fail();
            }
        }
        polled
    }

    /// Holds as much of the piece as has room.
    pub(crate) fn write(&mut self, piece: &[u8]) -> Result<usize, Failed>
        requires { 0 < length piece.now }
        ensures { WroteScript result piece.now self.old self.new }
    {
        self.plan.call()?;
        if self.used == self.space.len() {
            return Err(self.plan.fail());
        }
        let n = append_front(piece, piece.len(), &mut self.space, self.used);
        self.used += n;
        Ok(n)
    }

    /// Takes the link down.
    pub(crate) fn close(&mut self)
        ensures { self.new ≡ closed_side Host self.old }
    {
        self.up = false;
    }

    /// Takes the link down, and passes over the rest of its script.
    pub(crate) fn leave(&mut self)
        ensures { self.new ≡ closed_side Client self.old }
    {
        self.up = false;
        self.reader.skip();
    }

    /// What was written to it.
    pub(crate) fn written(&self) -> &[u8]
        ensures { result.now ≡ self.now.written }
    {
        &self.space[..self.used]
    }
}
