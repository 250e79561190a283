// A disk that stops within a chosen write.
ghost use Rattle.std.specs.Prelude.{◌≡◌, ◌<◌, ◌≤◌, ◌+◌, ℕ, true, false, None, Some, length, take, IsTrue, IsErr, OnOk, OnErr, slice_get};
ghost use Rattle.life_ports.specs.Faults.{HasCause, next_count};
ghost use Rattle.disk_model.specs.Disk.{IsImage, as_read, written, flushed, IsPartlyWritten, Elapses, FailsAs, unarmed, after_write};
ghost use Rattle.disk_model.specs.Disk.CallKind.{ReadCall, WriteCall, FlushCall};

use crate::{Disk, Stops};
use life_bytes::Sector;
use life_ports::Failed;

// A stop that is to come: within the write that is so many writes away, behind its first sectors.
#[derive(Clone, Copy)]
struct Stop {
    writes: u64,
    sectors: u64,
}

/// A disk over another one, that stops within a chosen write, as at a loss of power: of that write only the
/// first sectors pass, and it and every later call fail, until the disk is restarted. Each such failure
/// counts as a fault, beside those of the disk beneath.
#[derive(Drop)]
pub struct StopDisk<D> {
    inner: D,
    armed: Option<Stop>,
    stopped: bool,

    // How many calls failed by a stop: before the last restart, and since.
    earlier: u64,
    failures: u64,
    ghost none_yet: { stopped ≡ false → failures ≡ 0 },
}

impl<D: Disk> StopDisk<D> {
    ghost use Rattle.disk_model.specs.StopDisk.{inner_of, arming_of, failures_of, faults_of, HasStopped, IsRunning, Passes};

    /// A disk on which nothing is armed.
    pub fn new(inner: D) -> StopDisk<D>
        ensures inner { inner_of result ≡ inner }
        ensures arming { arming_of result ≡ unarmed }
        ensures failures { failures_of result ≡ 0 }
    {
        StopDisk {
            inner,
            armed: None,
            stopped: false,
            earlier: 0,
            failures: 0,
        }
    }

    /// Lets a disk that has stopped go on. Nothing is armed then. Its faults stay counted.
    pub fn restart(&mut self)
        ensures inner { inner_of self.new ≡ inner_of self.old }
        ensures armed { (arming_of self.new).armed ≡ None }
        ensures goes_on { IsRunning (arming_of self.new) }
        ensures count { faults_of D.fault_count self.new ≡ faults_of D.fault_count self.old }
    {
        self.earlier = self.earlier.saturating_add(self.failures);
        self.failures = 0;
        self.armed = None;
        self.stopped = false;
    }

    /// The disk beneath.
    pub fn inner(self) -> D
        ensures { result ≡ inner_of self }
    {
        self.inner
    }

    // Counts that a call of a disk that has stopped failed, and gives the answer that tells of it.
    fn failure(&mut self) -> Failed
        requires { HasStopped (arming_of self.old) }
        ensures inner { inner_of self.new ≡ inner_of self.old }
        ensures arming { arming_of self.new ≡ arming_of self.old }
        ensures failures { failures_of self.new ≡ next_count (failures_of self.old) }
    {
        self.failures = self.failures.saturating_add(1);
        Failed
    }

    // Fails where the disk has stopped.
    fn go_on(&mut self) -> Result<(), Failed>
        ensures inner { inner_of self.new ≡ inner_of self.old }
        ensures arming { arming_of self.new ≡ arming_of self.old }
        ensures ok { OnOk result (IsRunning (arming_of self.old) × (failures_of self.new ≡ failures_of self.old)) }
        ensures err { OnErr result (HasStopped (arming_of self.old)
            × (failures_of self.new ≡ next_count (failures_of self.old))) }
    {
        if self.stopped {
            return Err(self.failure());
        }
        Ok(())
    }

    // Passes the first `sectors` pieces of a write, or all where they are no more, and stops.
    fn stop_behind(&mut self, sectors: u64, at: u64, pieces: &[Sector]) -> Failed
        requires within { at + length pieces.now ≤ D.sector_count (inner_of self.old) }
        ensures arming { arming_of self.new ≡ record (arming_of self.old)
            { armed = Some (record { writes = 0; sectors = sectors }); stopped = true } }
        ensures failures { failures_of self.new ≡ next_count (failures_of self.old) }
        ensures passes { IsTrue D.known → Passes at (take sectors pieces.now)
            (D.fault_count (inner_of self.old)) (D.fault_count (inner_of self.new))
            (D.cells (inner_of self.old)) (D.cells (inner_of self.new)) }
        ensures time { IsTrue D.known → Elapses (D.moment (inner_of self.old)) (D.moment (inner_of self.new))
            (D.left_since (inner_of self.old)) (D.left_since (inner_of self.new))
            (IsImage (written at (take sectors pieces.now) (D.cells (inner_of self.old)))) }
        ensures kind { D.only_failed WriteCall (inner_of self.old) (inner_of self.new) }
        ensures sectors { D.sector_count (inner_of self.new) ≡ D.sector_count (inner_of self.old) }
        ensures count { D.fault_count (inner_of self.old) ≤ D.fault_count (inner_of self.new) }
    {
        let count = pieces.len().min(sectors as usize);
        if count > 0 {
            let _ = self.inner.write(at, &pieces[..count]);
        }
        self.armed = Some(Stop { writes: 0, sectors });
        self.stopped = true;
        self.failure()
    }
}

impl<D: Disk> Disk for StopDisk<D> {
    ghost use Rattle.disk_model.specs.StopDisk.{inner_of, arming_of, failures_of, faults_of, HasStopped, IsRunning, StopsNext, Passes};

    ghost known = { D.known };

    ghost sector_count = { λ disk. D.sector_count disk.inner };

    ghost fault_count = { faults_of D.fault_count };

    ghost cells = { λ disk. D.cells disk.inner };

    ghost moment = { λ disk. D.moment disk.inner };

    ghost left_since = { λ disk. D.left_since disk.inner };

    ghost arming = { λ disk. arming_of disk };

    ghost only_failed = { λ kind old new. D.only_failed kind old.inner new.inner };

    ghost cells_fit = { λ known disk. D.cells_fit known disk.inner };

    ghost counts_now = { λ known disk. D.counts_now known disk.inner };

    ghost only_now = { λ known disk. D.only_now known disk.inner };

    ghost none_failed = { λ kind disk. D.none_failed kind disk.inner };

    ghost both_failed = { λ kind first second third. D.both_failed kind first.inner second.inner third.inner };

    fn sectors(&self) -> u64 {
        self.inner.sectors()
    }

    fn faults(&self) -> u64 {
        let before = self.inner.faults().saturating_add(self.earlier);
        before.saturating_add(self.failures)
    }

    fn read(&mut self, at: u64, into: &mut Sector) -> Result<(), Failed>
        requires { at < D.sector_count (inner_of self.old) }

        // A disk that has stopped fails, and only that is counted. One that goes on is the disk beneath.
        ensures stopped { HasStopped (arming_of self.old) → IsErr result
            × (inner_of self.new ≡ inner_of self.old)
            × (failures_of self.new ≡ next_count (failures_of self.old)) }
        ensures goes_on { IsRunning (arming_of self.old) →
            HasCause result (D.fault_count (inner_of self.old)) (D.fault_count (inner_of self.new))
            × (failures_of self.new ≡ failures_of self.old) }

        ensures read { IsTrue D.known → OnOk result
            (slice_get (as_read (D.cells (inner_of self.old))) at ≡ Some into.new) }
        ensures cells { D.cells (inner_of self.new) ≡ D.cells (inner_of self.old) }
        ensures time { IsTrue D.known → Elapses (D.moment (inner_of self.old)) (D.moment (inner_of self.new))
            (D.left_since (inner_of self.old)) (D.left_since (inner_of self.new))
            (IsImage (D.cells (inner_of self.old))) }
        ensures sectors { D.sector_count (inner_of self.new) ≡ D.sector_count (inner_of self.old) }
        ensures arming { arming_of self.new ≡ arming_of self.old }
        ensures kind { FailsAs ReadCall result (λ kind. D.only_failed kind (inner_of self.old) (inner_of self.new)) }
        ensures cause { HasCause result (faults_of D.fault_count self.old) (faults_of D.fault_count self.new) }
    {
        self.go_on()?;
        self.inner.read(at, into)
    }

    fn write(&mut self, at: u64, pieces: &[Sector]) -> Result<(), Failed>
        requires some { 0 < length pieces.now }
        requires within { at + length pieces.now ≤ D.sector_count (inner_of self.old) }

        // A disk that has stopped fails, and only that is counted. Of the write within which it stops the
        // first sectors pass. One that goes on is the disk beneath.
        ensures stopped { HasStopped (arming_of self.old) → IsErr result
            × (inner_of self.new ≡ inner_of self.old)
            × (failures_of self.new ≡ next_count (failures_of self.old)) }
        ensures stops { (sectors : ℕ) → StopsNext (arming_of self.old) sectors → IsErr result
            × (failures_of self.new ≡ next_count (failures_of self.old))
            × (IsTrue D.known → Passes at (take sectors pieces.now)
            (D.fault_count (inner_of self.old)) (D.fault_count (inner_of self.new))
            (D.cells (inner_of self.old)) (D.cells (inner_of self.new))) }
        ensures goes_on { IsRunning (arming_of self.new) →
            HasCause result (D.fault_count (inner_of self.old)) (D.fault_count (inner_of self.new))
            × (failures_of self.new ≡ failures_of self.old) }

        ensures written { IsTrue D.known → OnOk result (D.cells (inner_of self.new)
            ≡ written at pieces.now (D.cells (inner_of self.old))) }
        ensures failed { IsTrue D.known → OnErr result (IsPartlyWritten at pieces.now
            (D.cells (inner_of self.old)) (D.cells (inner_of self.new))) }
        ensures time { IsTrue D.known → Elapses (D.moment (inner_of self.old)) (D.moment (inner_of self.new))
            (D.left_since (inner_of self.old)) (D.left_since (inner_of self.new))
            (IsImage (written at pieces.now (D.cells (inner_of self.old)))) }
        ensures sectors { D.sector_count (inner_of self.new) ≡ D.sector_count (inner_of self.old) }
        ensures arming { arming_of self.new ≡ after_write (arming_of self.old) }
        ensures kind { FailsAs WriteCall result (λ kind. D.only_failed kind (inner_of self.old) (inner_of self.new)) }
        ensures cause { HasCause result (faults_of D.fault_count self.old) (faults_of D.fault_count self.new) }
    {
        self.go_on()?;
        match self.armed {
            None => self.inner.write(at, pieces),
            Some(Stop { writes, sectors }) if writes <= 1 => {
                Err(self.stop_behind(sectors, at, pieces))
            }
            Some(Stop { writes, sectors }) => {
                self.armed = Some(Stop {
                    writes: writes - 1,
                    sectors,
                });
                self.inner.write(at, pieces)
            }
        }
    }

    fn flush(&mut self) -> Result<(), Failed>
        // A disk that has stopped fails, and only that is counted. One that goes on is the disk beneath.
        ensures stopped { HasStopped (arming_of self.old) → IsErr result
            × (inner_of self.new ≡ inner_of self.old)
            × (failures_of self.new ≡ next_count (failures_of self.old)) }
        ensures goes_on { IsRunning (arming_of self.old) →
            HasCause result (D.fault_count (inner_of self.old)) (D.fault_count (inner_of self.new))
            × (failures_of self.new ≡ failures_of self.old) }

        ensures flushed { IsTrue D.known → OnOk result (D.cells (inner_of self.new)
            ≡ flushed (D.cells (inner_of self.old))) }
        ensures failed { OnErr result (D.cells (inner_of self.new) ≡ D.cells (inner_of self.old)) }
        ensures time { IsTrue D.known → Elapses (D.moment (inner_of self.old)) (D.moment (inner_of self.new))
            (D.left_since (inner_of self.old)) (D.left_since (inner_of self.new))
            (IsImage (D.cells (inner_of self.old))) }
        ensures sectors { D.sector_count (inner_of self.new) ≡ D.sector_count (inner_of self.old) }
        ensures arming { arming_of self.new ≡ arming_of self.old }
        ensures kind { FailsAs FlushCall result (λ kind. D.only_failed kind (inner_of self.old) (inner_of self.new)) }
        ensures cause { HasCause result (faults_of D.fault_count self.old) (faults_of D.fault_count self.new) }
    {
        self.go_on()?;
        self.inner.flush()
    }
}

impl<D: Disk> Stops for StopDisk<D> {
    fn arm(&mut self, writes: u64, sectors: u64) {
        self.armed = Some(Stop { writes, sectors });
    }

    fn stopped(&self) -> bool {
        self.stopped
    }
}
