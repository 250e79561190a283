// A sink that keeps its bytes in memory.
ghost use Rattle.std.specs.Prelude.{◌≡◌, [], ◌++◌, length, IsErr, IfOk, OnOk, OnErr, Some};
ghost use Rattle.life_ports.specs.FaultPlan.{FailsNext, plan_after_call, after_fault};
ghost use Rattle.life_ports.specs.Faults.{HasCause};

use crate::{Failed, FaultPlan, Sink};
use std::alloc::Global;
use std::marker::Model;

/// A sink that takes each piece whole, and fails at chosen writes and where there is no memory.
#[derive(Drop)]
pub struct MemorySink {
    bytes: Vec<u8>,
    plan: FaultPlan,
}

impl Model for MemorySink {
    ghost use Rattle.life_ports.specs.MemorySink.{SinkState};

    ghost Value = { SinkState };

    ghost view = { λ s. record { held = s.bytes.items; plan = s.plan } };
}

impl MemorySink {
    /// A sink that holds nothing. `fails` lists the writes that are to fail, counted from 1.
    pub fn new(alloc: Global, fails: Vec<u64>) -> MemorySink
        ensures held { result.held ≡ [] }
        ensures plan { result.plan ≡ record { fails = fails.items; calls = 0; faults = 0 } }
    {
        MemorySink {
            bytes: Vec::new(alloc),
            plan: FaultPlan::new(fails),
        }
    }

    /// The bytes that were taken, in order.
    pub fn bytes(&self) -> &[u8]
        ensures { result.now ≡ self.now.held }
    {
        &self.bytes
    }
}

impl Sink for MemorySink {
    ghost bytes_held = { λ s. Some s.held };

    ghost fault_count = { λ s. s.plan.faults };

    fn faults(&self) -> u64 {
        self.plan.faults()
    }

    fn write(&mut self, piece: &[u8]) -> Result<usize, Failed>
        ensures listed { FailsNext self.old.plan → IsErr result }
        ensures whole { IfOk result (λ n. n ≡ length piece.now) }
        ensures ok { OnOk result (self.new ≡ record
            { held = self.old.held ++ piece.now; plan = plan_after_call self.old.plan }) }
        ensures err { OnErr result (self.new ≡ record self.old
            { plan = after_fault (plan_after_call self.old.plan) }) }
        ensures cause { HasCause result self.old.plan.faults self.new.plan.faults }
    {
        self.plan.call()?;
        match self.bytes.extend_from_slice(piece) {
            Ok(()) => Ok(piece.len()),
            Err(_) => Err(self.plan.fault()),
        }
    }
}
