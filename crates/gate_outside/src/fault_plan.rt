//! Which calls fail, for the forms in memory.

ghost use Rattle.std.specs.Prelude.{◌≡◌, IfOk};

use crate::fault::Failed;
use std::alloc::Global;
use std::marker::Model;
use usb_base::Memory;

/// Counts calls from 0, and fails exactly those whose number is listed.
#[derive(Drop)]
pub(crate) struct FaultPlan {
    calls: u64,
    fails: Vec<u64>,
    faults: u64,
}

impl Model for FaultPlan {
    ghost use Rattle.gate_outside.specs.Plan.{Plan};

    ghost Value = { Plan };

    ghost view = { λ plan. record { calls = plan.calls; fails = plan.fails.items; faults = plan.faults } };
}

impl FaultPlan {
    ghost use Rattle.gate_outside.specs.Plan.{fresh, faulted, Counts};

    pub(crate) fn make(alloc: Global, fails: &[u64]) -> Result<FaultPlan, Memory>
        ensures { IfOk result (λ plan. plan ≡ fresh fails.now) }
    {
        let fails = fails.to_vec(alloc)?;
        Ok(FaultPlan {
            calls: 0,
            fails,
            faults: 0,
        })
    }

    /// Counts a call, and fails it if its number is listed.
    pub(crate) fn call(&mut self) -> Result<(), Failed>
        ensures { Counts result self.old self.new }
    {
        let number = self.calls;
        self.calls = number.saturating_add(1);
        if self.fails.contains(&number) {
            return Err(self.fail());
        }
        Ok(())
    }

    /// Counts a fault.
    pub(crate) fn fail(&mut self) -> Failed
        ensures { self.new ≡ faulted self.old }
    {
        self.faults = self.faults.saturating_add(1);
        Failed
    }
}
