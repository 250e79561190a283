// Jobs, and their steps.
ghost use Rattle.std.specs.Prelude.{ℕ, ◌≡◌, ◌≢◌, []};
ghost use Rattle.log_store.specs.declared.store.Job.TheVariants.{Force, Home, Idle, Nothing, WriteBack};
ghost use Rattle.log_store.specs.declared.store.Stage.TheVariants.{Down, Free};
ghost use Rattle.log_store.specs.Actions.{IsDoneBy, IsStep, end_job, home_action, room_action};
ghost use Rattle.log_store.specs.State.{state_of};
ghost use Rattle.log_store.specs.Steps.{Covering, Goes, IsStore};

use crate::fault::{Progress, StoreFault};
use crate::store::{Job, Stage, Store};
use disk_model::Disk;

impl<D: Disk> Store<D> {
    /// Begins the job that makes every commit durable. No job may be going.
    pub fn begin_force(&mut self)
        requires store { IsStore D.known D.cells D.sector_count self.old }
        requires idle { self.old.job ≡ Idle }
        ensures store { IsStore D.known D.cells D.sector_count self.new }
        ensures job { self.new ≡ record self.old { job = Force } }
    {
        self.job = Job::Force;
    }

    /// Begins the job that writes every logged sector home and moves the tail. No job may be going.
    pub fn begin_home(&mut self)
        requires store { IsStore D.known D.cells D.sector_count self.old }
        requires idle { self.old.job ≡ Idle }
        ensures store { IsStore D.known D.cells D.sector_count self.new }
        ensures job { self.new ≡ record self.old { job = self.new.job } }
        ensures clean { self.old.dirty.images ≡ [] → self.new.job ≡ Nothing }
        ensures dirty { self.old.dirty.images ≢ [] → self.new.job ≡ Home }
    {
        if self.dirty.is_empty() {
            self.job = Job::Nothing;
        } else {
            self.job = Job::Home;
        }
    }

    /// Makes one device call of the job that is going, or ends it without one where it has nothing to do. A job ends
    /// where this answers `Ended` or a fault.
    pub fn advance(&mut self) -> Result<Progress, StoreFault>
        requires store { IsStore D.known D.cells D.sector_count self.old }
        ensures goes { Goes D.known D.cells D.sector_count D.moment D.left_since self.old self.new }
        ensures step { IsStep D.known D.cells D.sector_count D.arming D.fault_count result self.old self.new }
        ensures down { (fault : ℕ) → self.old.stage ≡ Down fault → (result ≡ Err (StoreFault.Down fault)) × (self.new ≡ record self.old { job = Idle }) }
    {
        match self.stage {
            Stage::Down(fault) => {
                self.job = Job::Idle;
                Err(StoreFault::Down { fault })
            }
            Stage::Half => self.write_rest(),
            Stage::Record => self.flush_record(),
            Stage::Cover => self.flush_cover(),
            Stage::Free => self.next_step(),
        }
    }

    /// The next step where nothing is in flight.
    fn next_step(&mut self) -> Result<Progress, StoreFault>
        requires store { IsStore D.known D.cells D.sector_count self.old }
        requires stage { self.old.stage ≡ Free }
        ensures goes { Goes D.known D.cells D.sector_count D.moment D.left_since self.old self.new }
        ensures step { IsStep D.known D.cells D.sector_count D.arming D.fault_count result self.old self.new }
    {
        match self.job {
            Job::Force => self.force_step(),
            Job::Clear | Job::Home => self.clear_step(),
            Job::WriteBack => self.home_step(),
            Job::Idle | Job::Nothing => {
                self.job = Job::Idle;
                Ok(Progress::Ended)
            }
        }
    }

    /// A step of a force: the next record, or room for it.
    fn force_step(&mut self) -> Result<Progress, StoreFault>
        requires store { IsStore D.known D.cells D.sector_count self.old }
        requires stage { self.old.stage ≡ Free }
        requires job { self.old.job ≡ Force }
        ensures goes { Goes D.known D.cells D.sector_count D.moment D.left_since self.old self.new }
        ensures step { IsStep D.known D.cells D.sector_count D.arming D.fault_count result self.old self.new }
    {
        if self.queue.is_empty() {
            self.job = Job::Idle;
            return Ok(Progress::Ended);
        }
        self.gather();
        if self.fits() {
            return self.write_record();
        }
        self.job = Job::Clear;
        self.clear_step()
    }

    /// A step of making room: a logged sector home, or the flush of those, or the cover.
    fn clear_step(&mut self) -> Result<Progress, StoreFault>
        requires store { IsStore D.known D.cells D.sector_count self.old }
        requires stage { self.old.stage ≡ Free }
        requires job { Covering self.old.job }
        ensures goes { Goes D.known D.cells D.sector_count D.moment D.left_since self.old self.new }
        ensures done { IsDoneBy D.known D.cells D.sector_count D.arming D.fault_count
            (room_action (state_of self.old)) result self.old.job (state_of self.old) self.old.disk self.new }
        ensures batch { self.new.batch ≡ self.old.batch }
    {
        if !self.dirty.is_empty() {
            return self.write_home();
        }
        if self.unflushed {
            return self.flush_home();
        }
        self.write_cover()
    }

    /// A step of writing back: a logged sector home, or the flush of those.
    fn home_step(&mut self) -> Result<Progress, StoreFault>
        requires store { IsStore D.known D.cells D.sector_count self.old }
        requires stage { self.old.stage ≡ Free }
        requires job { self.old.job ≡ WriteBack }
        ensures goes { Goes D.known D.cells D.sector_count D.moment D.left_since self.old self.new }
        ensures done { IsDoneBy D.known D.cells D.sector_count D.arming D.fault_count
            (home_action self.old.dirty.images self.old.unflushed end_job) result self.old.job (state_of self.old) self.old.disk self.new }
    {
        if !self.dirty.is_empty() {
            return self.write_home();
        }
        if self.unflushed {
            return self.flush_home();
        }
        self.job = Job::Idle;
        Ok(Progress::Ended)
    }
}
