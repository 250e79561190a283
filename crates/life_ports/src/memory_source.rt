// A source whose bytes are in memory.
ghost use Rattle.std.specs.Prelude.{◌≡◌, ◌↔◌, IsErr, IfOk, OnErr, Some};
ghost use Rattle.life_ports.specs.FaultPlan.{FailsNext, plan_after_call, after_fault};
ghost use Rattle.life_ports.specs.Faults.{HasCause};
ghost use Rattle.life_ports.specs.MemorySource.{GivesBytes};

use crate::{Failed, FaultPlan, Source};
use std::marker::Model;

/// A source that gives the bytes of a list, all that fit into a piece at each read, and fails at
/// chosen reads.
#[derive(Drop)]
pub struct MemorySource {
    bytes: Vec<u8>,
    given: usize,
    plan: FaultPlan,
}

impl Model for MemorySource {
    ghost use Rattle.std.specs.Prelude.{◌≤◌, length, drop};
    ghost use Rattle.life_ports.specs.MemorySource.{SourceState};

    ghost Value = { SourceState };

    ghost view = { λ s. record { left = drop s.given s.bytes.items; plan = s.plan } };

    ghost invariant = { λ s. s.given ≤ length s.bytes.items };
}

impl MemorySource {
    /// A source of these bytes. `fails` lists the reads that are to fail, counted from 1.
    pub fn new(bytes: Vec<u8>, fails: Vec<u64>) -> MemorySource
        ensures left { result.left ≡ bytes.items }
        ensures plan { result.plan ≡ record { fails = fails.items; calls = 0; faults = 0 } }
    {
        MemorySource {
            bytes,
            given: 0,
            plan: FaultPlan::new(fails),
        }
    }
}

impl Source for MemorySource {
    ghost bytes_left = { λ s. Some s.left };

    ghost fault_count = { λ s. s.plan.faults };

    fn faults(&self) -> u64 {
        self.plan.faults()
    }

    fn read(&mut self, into: &mut [u8]) -> Result<usize, Failed>
        ensures listed { IsErr result ↔ FailsNext self.old.plan }
        ensures ok { IfOk result (GivesBytes self.old self.new into.old into.new) }
        ensures err { OnErr result (self.new ≡ record self.old
            { plan = after_fault (plan_after_call self.old.plan) }) }
        ensures piece_kept { OnErr result (into.new ≡ into.old) }
        ensures cause { HasCause result self.old.plan.faults self.new.plan.faults }
    {
        self.plan.call()?;
        let count = into.len().min(self.bytes.len() - self.given);
        let next = self.given + count;
        into[..count].copy_from_slice(&self.bytes[self.given..next]);
        self.given = next;
        Ok(count)
    }
}
