// Whole jobs.
ghost use Rattle.std.specs.Prelude.{ℕ, ◌≡◌, ◌<◌, ◌+◌, ◌^◌, ◌↔◌, List, [], false, IsTrue, IfErr, IfOk, None, OnErr, OnOk, ◌≤◌};
ghost use Rattle.life_bytes.specs.declared.sector.Sector.{Sector};
ghost use Rattle.disk_model.specs.Disk.{IsAfterWrites, IsImage};
ghost use Rattle.log_store.specs.OnDisk.{HasCover, ReplaysTo};
ghost use Rattle.log_store.specs.declared.store.Job.TheVariants.{Force, Home, Idle, WriteBack};
ghost use Rattle.log_store.specs.declared.store.Stage.TheVariants.{Down, Free};
ghost use Rattle.log_store.specs.Actions.{HasNothing, IsWholeJob, last_answer};
ghost use Rattle.log_store.specs.Outcome.{CoverEndsPast, Covered, IsDone, IsFault, Rises, PositionsStay, covers_of, down_count};
ghost use Rattle.log_store.specs.State.{state_of};
ghost use Rattle.log_store.specs.Steps.{Goes, IsStore, JobAsks};

use crate::fault::{Progress, StoreFault};
use crate::laws::{cover_flights, states};
use crate::store::{Job, Store};
use disk_model::Disk;

impl<D: Disk> Store<D> {
    /// Goes on with the job until it ends.
    fn run(&mut self) -> Result<(), StoreFault>
        requires { IsStore D.known D.cells D.sector_count self.old }
        ensures goes { Goes D.known D.cells D.sector_count D.moment D.left_since self.old self.new }
        ensures whole { IsWholeJob D.known D.cells D.sector_count D.arming D.fault_count
            (last_answer result) self.old self.new }
        ensures nothing { HasNothing self.old.job (state_of self.old) → self.old.stage ≡ Free → self.new.disk ≡ self.old.disk }
        ensures count { D.fault_count self.old.disk ≤ D.fault_count self.new.disk }
        ensures sectors { D.sector_count self.new.disk ≡ D.sector_count self.old.disk }
        ensures up { OnOk result (down_count self.new.stage ≡ None) }
        ensures only_down { (fault : ℕ) → result ≡ Err (StoreFault.Down fault) → self.old.stage ≡ Down fault }
        ensures idle { self.new.job ≡ Idle }
        ensures done { OnOk result (IsDone self.old.job (state_of self.new)) }
        ensures rises { Rises (covers_of self.old.job) 0 (state_of self.old) (state_of self.new) }
        ensures stays { self.old.job ≡ WriteBack → PositionsStay (state_of self.old) (state_of self.new) }
        ensures covered { self.old.job ≡ Home → OnOk result (Covered (state_of self.old) (state_of self.new)) }
        ensures last { self.old.job ≡ Home → IsTrue D.known → OnOk result ((image : List Sector) → IsImage (D.cells self.new.disk) image
            → HasCover self.old.anchor self.old.ring self.old.positions.head (self.old.durable + 1) image) }
        ensures failed { self.old.job ≡ Home → OnErr result (PositionsStay (state_of self.old) (state_of self.new)) }
        ensures at_end { self.old.job ≡ Home → self.old.stage ≡ Free → CoverEndsPast (state_of self.old) → result ≡ Err StoreFault.PositionEnd }
        ensures arming { IsAfterWrites (D.arming self.old.disk) (D.arming self.new.disk) }
        ensures fault { IfErr result (λ fault. IsFault fault self.old.job (state_of self.new) (D.fault_count self.old.disk) (D.fault_count self.new.disk)) }
        ensures down { (fault : ℕ) → self.old.stage ≡ Down fault → (result ≡ Err (StoreFault.Down fault)) × (self.new.disk ≡ self.old.disk) }
    {
        cover_flights();
        loop {
            match self.advance()? {
                Progress::More => {}
                Progress::Ended => return Ok(()),
            }
        }
    }

    /// Makes every taken commit durable, and answers the greatest commit number. No job may be going.
    pub fn force(&mut self) -> Result<u64, StoreFault>
        requires store { IsStore D.known D.cells D.sector_count self.old }
        requires idle { self.old.job ≡ Idle }
        ensures goes { Goes D.known D.cells D.sector_count D.moment D.left_since self.old self.new }
        ensures whole { IsWholeJob D.known D.cells D.sector_count D.arming D.fault_count
            (last_answer result) (record self.old { job = Force }) self.new }
        ensures nothing { self.old.queue.items ≡ [] → self.old.stage ≡ Free → self.new.disk ≡ self.old.disk }
        ensures count { D.fault_count self.old.disk ≤ D.fault_count self.new.disk }
        ensures sectors { D.sector_count self.new.disk ≡ D.sector_count self.old.disk }
        ensures up { OnOk result (down_count self.new.stage ≡ None) }
        ensures only_down { (fault : ℕ) → result ≡ Err (StoreFault.Down fault) → self.old.stage ≡ Down fault }
        ensures down_fault { (fault : ℕ) → result ≡ Err (StoreFault.Down fault) → self.new.stage ≡ Down fault }
        ensures idle { self.new.job ≡ Idle }
        ensures all { OnOk result (self.new.queue.items ≡ []) }
        ensures number { IfOk result (λ number. number ≡ self.new.durable) }
        // What a stop leaves from then on has every commit: its next commit number is the answer and one.
        ensures acknowledged { IsTrue D.known → OnOk result ((image : List Sector) → IsImage (D.cells self.new.disk) image
            → ReplaysTo (state_of self.new) (D.cells self.new.disk) image) }
        // A record has at most 135 sectors, and a force writes at most one cover in front of it.
        ensures rises { Rises 0 0 (state_of self.old) (state_of self.new) }
        ensures arming { IsAfterWrites (D.arming self.old.disk) (D.arming self.new.disk) }
        ensures write_fault { result ≡ Err StoreFault.WriteFault → IsFault StoreFault.WriteFault Force
            (state_of self.new) (D.fault_count self.old.disk) (D.fault_count self.new.disk) }
        ensures flush_fault { result ≡ Err StoreFault.FlushFault → IsFault StoreFault.FlushFault Force
            (state_of self.new) (D.fault_count self.old.disk) (D.fault_count self.new.disk) }
        ensures position_end { result ≡ Err StoreFault.PositionEnd → IsFault StoreFault.PositionEnd Force
            (state_of self.new) (D.fault_count self.old.disk) (D.fault_count self.new.disk) }
        ensures down { (fault : ℕ) → self.old.stage ≡ Down fault → (result ≡ Err (StoreFault.Down fault)) × (self.new.disk ≡ self.old.disk) }
    {
        states();
        self.begin(Job::Force);
        self.run()?;
        Ok(self.durable)
    }

    /// Writes every logged sector home, and flushes where it wrote one. No job may be going.
    pub fn write_back(&mut self) -> Result<(), StoreFault>
        requires store { IsStore D.known D.cells D.sector_count self.old }
        requires idle { self.old.job ≡ Idle }
        ensures goes { Goes D.known D.cells D.sector_count D.moment D.left_since self.old self.new }
        ensures whole { IsWholeJob D.known D.cells D.sector_count D.arming D.fault_count
            (last_answer result) (record self.old { job = WriteBack }) self.new }
        ensures nothing { self.old.dirty.images ≡ [] → self.old.unflushed ≡ false → self.old.stage ≡ Free
            → self.new.disk ≡ self.old.disk }
        ensures count { D.fault_count self.old.disk ≤ D.fault_count self.new.disk }
        ensures sectors { D.sector_count self.new.disk ≡ D.sector_count self.old.disk }
        ensures up { OnOk result (down_count self.new.stage ≡ None) }
        ensures only_down { (fault : ℕ) → result ≡ Err (StoreFault.Down fault) → self.old.stage ≡ Down fault }
        ensures down_fault { (fault : ℕ) → result ≡ Err (StoreFault.Down fault) → self.new.stage ≡ Down fault }
        ensures idle { self.new.job ≡ Idle }
        ensures home { OnOk result ((self.new.dirty.images ≡ []) × (self.new.unflushed ≡ false)) }
        ensures stays { PositionsStay (state_of self.old) (state_of self.new) }
        ensures arming { IsAfterWrites (D.arming self.old.disk) (D.arming self.new.disk) }
        ensures write_fault { result ≡ Err StoreFault.WriteFault → IsFault StoreFault.WriteFault WriteBack
            (state_of self.new) (D.fault_count self.old.disk) (D.fault_count self.new.disk) }
        ensures flush_fault { result ≡ Err StoreFault.FlushFault → IsFault StoreFault.FlushFault WriteBack
            (state_of self.new) (D.fault_count self.old.disk) (D.fault_count self.new.disk) }
        ensures position_end { result ≡ Err StoreFault.PositionEnd → IsFault StoreFault.PositionEnd WriteBack
            (state_of self.new) (D.fault_count self.old.disk) (D.fault_count self.new.disk) }
        ensures down { (fault : ℕ) → self.old.stage ≡ Down fault → (result ≡ Err (StoreFault.Down fault)) × (self.new.disk ≡ self.old.disk) }
    {
        self.begin(Job::WriteBack);
        self.run()
    }

    /// Writes the cover record, flushes it and moves the tail. Every logged sector has to be home and flushed, and
    /// no job may be going.
    pub fn cover(&mut self) -> Result<(), StoreFault>
        requires store { IsStore D.known D.cells D.sector_count self.old }
        requires idle { self.old.job ≡ Idle }
        requires home { self.old.dirty.images ≡ [] }
        requires flushed { self.old.unflushed ≡ false }
        ensures goes { Goes D.known D.cells D.sector_count D.moment D.left_since self.old self.new }
        ensures whole { IsWholeJob D.known D.cells D.sector_count D.arming D.fault_count
            (last_answer result) (record self.old { job = Home }) self.new }
        ensures count { D.fault_count self.old.disk ≤ D.fault_count self.new.disk }
        ensures sectors { D.sector_count self.new.disk ≡ D.sector_count self.old.disk }
        ensures up { OnOk result (down_count self.new.stage ≡ None) }
        ensures only_down { (fault : ℕ) → result ≡ Err (StoreFault.Down fault) → self.old.stage ≡ Down fault }
        ensures down_fault { (fault : ℕ) → result ≡ Err (StoreFault.Down fault) → self.new.stage ≡ Down fault }
        ensures idle { self.new.job ≡ Idle }
        ensures covered { OnOk result (Covered (state_of self.old) (state_of self.new)) }
        // The last record of whatever a crash leaves is the cover, which stands alone.
        ensures last { IsTrue D.known → OnOk result ((image : List Sector) → IsImage (D.cells self.new.disk) image
            → HasCover self.old.anchor self.old.ring self.old.positions.head (self.old.durable + 1) image) }
        ensures failed { OnErr result (PositionsStay (state_of self.old) (state_of self.new)) }
        ensures end { (result ≡ Err StoreFault.PositionEnd) ↔ (self.old.stage ≡ Free) × (2 ^ 63 < self.old.positions.head + 1) }
        ensures arming { IsAfterWrites (D.arming self.old.disk) (D.arming self.new.disk) }
        ensures write_fault { result ≡ Err StoreFault.WriteFault → IsFault StoreFault.WriteFault Home
            (state_of self.new) (D.fault_count self.old.disk) (D.fault_count self.new.disk) }
        ensures flush_fault { result ≡ Err StoreFault.FlushFault → IsFault StoreFault.FlushFault Home
            (state_of self.new) (D.fault_count self.old.disk) (D.fault_count self.new.disk) }
        ensures position_end { result ≡ Err StoreFault.PositionEnd → IsFault StoreFault.PositionEnd Home
            (state_of self.new) (D.fault_count self.old.disk) (D.fault_count self.new.disk) }
        ensures down { (fault : ℕ) → self.old.stage ≡ Down fault → (result ≡ Err (StoreFault.Down fault)) × (self.new.disk ≡ self.old.disk) }
    {
        self.begin(Job::Home);
        self.run()
    }

    /// Begins a job.
    fn begin(&mut self, job: Job)
        requires store { IsStore D.known D.cells D.sector_count self.old }
        requires idle { self.old.job ≡ Idle }
        requires asks { JobAsks job self.old.queue.items self.old.batch self.old.ring self.old.positions.head self.old.positions.tail }
        ensures goes { Goes D.known D.cells D.sector_count D.moment D.left_since self.old self.new }
        ensures job { self.new ≡ record self.old { job = job } }
    {
        self.job = job;
    }
}
