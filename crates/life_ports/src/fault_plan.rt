// Faults on a plan, for the objects that live in memory.
ghost use Rattle.std.specs.Prelude.{◌≡◌, ◌↔◌, IsErr, OnOk, OnErr};
ghost use Rattle.life_ports.specs.FaultPlan.{FailsNext, plan_after_call, after_fault};
ghost use Rattle.life_ports.specs.Faults.{HasCause, NeverFalls};

use crate::Failed;
use std::marker::Model;

/// Which calls of an object are to fail, how many calls it has had, and its count of faults.
/// Calls are counted from 1. Both counts stand still at `u64::MAX`.
#[derive(Drop)]
pub struct FaultPlan {
    fails: Vec<u64>,
    calls: u64,
    faults: u64,
}

impl Model for FaultPlan {
    ghost use Rattle.life_ports.specs.FaultPlan.{Plan};

    ghost Value = { Plan };

    ghost view = { λ p. record { fails = p.fails.items; calls = p.calls; faults = p.faults } };
}

impl FaultPlan {
    /// The calls of the list are to fail. It need not be sorted.
    pub fn new(fails: Vec<u64>) -> FaultPlan
        ensures { result ≡ record { fails = fails.items; calls = 0; faults = 0 } }
    {
        FaultPlan {
            fails,
            calls: 0,
            faults: 0,
        }
    }

    /// The count of faults.
    pub fn faults(&self) -> u64
        ensures { result ≡ self.now.faults }
    {
        self.faults
    }

    /// Counts a call, and where it is one of those that are to fail, a fault too.
    pub fn call(&mut self) -> Result<(), Failed>
        ensures listed { IsErr result ↔ FailsNext self.old }
        ensures ok { OnOk result (self.new ≡ plan_after_call self.old) }
        ensures err { OnErr result (self.new ≡ after_fault (plan_after_call self.old)) }
        ensures cause { HasCause result self.old.faults self.new.faults }
    {
        self.calls = self.calls.saturating_add(1);
        if self.fails.contains(&self.calls) {
            return Err(self.fault());
        }
        Ok(())
    }

    /// Counts a fault, and gives the answer that tells of it.
    pub fn fault(&mut self) -> Failed
        ensures counted { self.new ≡ after_fault self.old }
        ensures count { NeverFalls self.old.faults self.new.faults }
    {
        self.faults = self.faults.saturating_add(1);
        Failed
    }
}
