// A disk that fails at chosen calls.
ghost use Rattle.std.specs.Prelude.{◌≡◌, ◌<◌, ◌≤◌, ◌+◌, [], length, IsTrue, IsErr, IfOk, OnOk, OnErr, Some, slice_get, replicate};
ghost use Rattle.life_bytes.specs.Sectors.{zero_sector};
ghost use Rattle.life_ports.specs.FaultPlan.{FailsNext, plan_after_call, after_fault};
ghost use Rattle.life_ports.specs.Faults.{HasCause};
ghost use Rattle.disk_model.specs.Disk.{IsImage, as_read, settled_as, written, flushed, IsPartlyWritten, Elapses, FailsAs};
ghost use Rattle.disk_model.specs.Disk.CallKind.{ReadCall, WriteCall, FlushCall};
ghost use Rattle.disk_model.specs.FaultDisk.{FailsHere};

use crate::{Blank, Disk};
use life_bytes::Sector;
use life_ports::{Failed, FaultPlan, NoMemory};
use std::alloc::Global;

/// A disk over another one. It fails at the listed calls, without a call of the disk beneath, and where that
/// one fails. Its count of faults is its own, from 0 on.
#[derive(Drop)]
pub struct FaultDisk<D> {
    inner: D,
    plan: FaultPlan,
}

impl<D: Disk> FaultDisk<D> {
    ghost use Rattle.disk_model.specs.FaultDisk.{inner_of, plan_of};

    /// `fails` lists the calls that are to fail: reads, writes and flushes, counted together from 1.
    pub fn new(inner: D, fails: Vec<u64>) -> FaultDisk<D>
        ensures inner { inner_of result ≡ inner }
        ensures plan { plan_of result ≡ record { fails = fails.items; calls = 0; faults = 0 } }
    {
        FaultDisk {
            inner,
            plan: FaultPlan::new(fails),
        }
    }

    /// The disk beneath.
    pub fn into_inner(self) -> D
        ensures { result ≡ inner_of self }
    {
        self.inner
    }
}

impl<D: Blank> Blank for FaultDisk<D> {
    ghost use Rattle.disk_model.specs.FaultDisk.{inner_of, plan_of};

    /// A disk that fails where the blank disk beneath fails.
    fn blank(alloc: Global, sectors: u64) -> Result<FaultDisk<D>, NoMemory>
        ensures plan { IfOk result (λ disk. plan_of disk ≡ record { fails = []; calls = 0; faults = 0 }) }
        ensures sectors { IfOk result (λ disk. D.sector_count (inner_of disk) ≡ sectors) }
        ensures blank { IfOk result (λ disk. IsTrue D.known →
            D.cells (inner_of disk) ≡ settled_as (replicate sectors zero_sector)) }
    {
        Ok(FaultDisk::new(D::blank(alloc, sectors)?, Vec::new(alloc)))
    }
}

impl<D: Disk> Disk for FaultDisk<D> {
    ghost use Rattle.disk_model.specs.FaultDisk.{inner_of, plan_of};

    ghost known = { D.known };

    ghost sector_count = { λ disk. D.sector_count disk.inner };

    ghost fault_count = { λ disk. disk.plan.faults };

    ghost cells = { λ disk. D.cells disk.inner };

    ghost moment = { λ disk. D.moment disk.inner };

    ghost left_since = { λ disk. D.left_since disk.inner };

    ghost only_failed = { λ kind old new. D.only_failed kind old.inner new.inner };

    ghost cells_fit = { λ known disk. D.cells_fit known disk.inner };

    ghost counts_now = { λ known disk. D.counts_now known disk.inner };

    ghost only_now = { λ known disk. D.only_now known disk.inner };

    ghost none_failed = { λ kind disk. D.none_failed kind disk.inner };

    ghost both_failed = { λ kind first second third. D.both_failed kind first.inner second.inner third.inner };

    fn sectors(&self) -> u64 {
        self.inner.sectors()
    }

    fn faults(&self) -> u64 {
        self.plan.faults()
    }

    fn read(&mut self, at: u64, into: &mut Sector) -> Result<(), Failed>
        requires { at < D.sector_count (inner_of self.old) }

        // Which calls fail, and what stays where the plan says so.
        ensures listed { FailsNext (plan_of self.old) → IsErr result
            × (inner_of self.new ≡ inner_of self.old) }
        ensures unlisted { OnErr result (FailsHere (plan_of self.old)
            (D.fault_count (inner_of self.old)) (D.fault_count (inner_of self.new))) }
        ensures ok { OnOk result (plan_of self.new ≡ plan_after_call (plan_of self.old)) }
        ensures err { OnErr result (plan_of self.new ≡ after_fault (plan_after_call (plan_of self.old))) }

        ensures read { IsTrue D.known → OnOk result
            (slice_get (as_read (D.cells (inner_of self.old))) at ≡ Some into.new) }
        ensures cells { D.cells (inner_of self.new) ≡ D.cells (inner_of self.old) }
        ensures time { IsTrue D.known → Elapses (D.moment (inner_of self.old)) (D.moment (inner_of self.new))
            (D.left_since (inner_of self.old)) (D.left_since (inner_of self.new))
            (IsImage (D.cells (inner_of self.old))) }
        ensures sectors { D.sector_count (inner_of self.new) ≡ D.sector_count (inner_of self.old) }
        ensures kind { FailsAs ReadCall result (λ kind. D.only_failed kind (inner_of self.old) (inner_of self.new)) }
        ensures cause { HasCause result (plan_of self.old).faults (plan_of self.new).faults }
    {
        self.plan.call()?;
        match self.inner.read(at, into) {
            Ok(()) => Ok(()),
            Err(_) => Err(self.plan.fault()),
        }
    }

    fn write(&mut self, at: u64, pieces: &[Sector]) -> Result<(), Failed>
        requires some { 0 < length pieces.now }
        requires within { at + length pieces.now ≤ D.sector_count (inner_of self.old) }

        // Which calls fail, and what stays where the plan says so.
        ensures listed { FailsNext (plan_of self.old) → IsErr result
            × (inner_of self.new ≡ inner_of self.old) }
        ensures unlisted { OnErr result (FailsHere (plan_of self.old)
            (D.fault_count (inner_of self.old)) (D.fault_count (inner_of self.new))) }
        ensures ok { OnOk result (plan_of self.new ≡ plan_after_call (plan_of self.old)) }
        ensures err { OnErr result (plan_of self.new ≡ after_fault (plan_after_call (plan_of self.old))) }

        ensures written { IsTrue D.known → OnOk result (D.cells (inner_of self.new)
            ≡ written at pieces.now (D.cells (inner_of self.old))) }
        ensures failed { IsTrue D.known → OnErr result (IsPartlyWritten at pieces.now
            (D.cells (inner_of self.old)) (D.cells (inner_of self.new))) }
        ensures time { IsTrue D.known → Elapses (D.moment (inner_of self.old)) (D.moment (inner_of self.new))
            (D.left_since (inner_of self.old)) (D.left_since (inner_of self.new))
            (IsImage (written at pieces.now (D.cells (inner_of self.old)))) }
        ensures sectors { D.sector_count (inner_of self.new) ≡ D.sector_count (inner_of self.old) }
        ensures kind { FailsAs WriteCall result (λ kind. D.only_failed kind (inner_of self.old) (inner_of self.new)) }
        ensures cause { HasCause result (plan_of self.old).faults (plan_of self.new).faults }
    {
        self.plan.call()?;
        match self.inner.write(at, pieces) {
            Ok(()) => Ok(()),
            Err(_) => Err(self.plan.fault()),
        }
    }

    fn flush(&mut self) -> Result<(), Failed>
        // Which calls fail, and what stays where the plan says so.
        ensures listed { FailsNext (plan_of self.old) → IsErr result
            × (inner_of self.new ≡ inner_of self.old) }
        ensures unlisted { OnErr result (FailsHere (plan_of self.old)
            (D.fault_count (inner_of self.old)) (D.fault_count (inner_of self.new))) }
        ensures ok { OnOk result (plan_of self.new ≡ plan_after_call (plan_of self.old)) }
        ensures err { OnErr result (plan_of self.new ≡ after_fault (plan_after_call (plan_of self.old))) }

        ensures flushed { IsTrue D.known → OnOk result (D.cells (inner_of self.new)
            ≡ flushed (D.cells (inner_of self.old))) }
        ensures failed { OnErr result (D.cells (inner_of self.new) ≡ D.cells (inner_of self.old)) }
        ensures time { IsTrue D.known → Elapses (D.moment (inner_of self.old)) (D.moment (inner_of self.new))
            (D.left_since (inner_of self.old)) (D.left_since (inner_of self.new))
            (IsImage (D.cells (inner_of self.old))) }
        ensures sectors { D.sector_count (inner_of self.new) ≡ D.sector_count (inner_of self.old) }
        ensures kind { FailsAs FlushCall result (λ kind. D.only_failed kind (inner_of self.old) (inner_of self.new)) }
        ensures cause { HasCause result (plan_of self.old).faults (plan_of self.new).faults }
    {
        self.plan.call()?;
        match self.inner.flush() {
            Ok(()) => Ok(()),
            Err(_) => Err(self.plan.fault()),
        }
    }
}
