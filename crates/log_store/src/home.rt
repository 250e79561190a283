// The steps that write logged sectors home.
ghost use Rattle.std.specs.Prelude.{◌≡◌, ◌≢◌, [], IsTrue};
ghost use Rattle.log_store.specs.declared.store.Stage.TheVariants.{Free};
ghost use Rattle.log_store.specs.Actions.{Action, IsDoneBy, home_action};
ghost use Rattle.log_store.specs.State.{state_of};
ghost use Rattle.log_store.specs.Steps.{Goes, IsStore, MovesHome};

use crate::fault::{Progress, StoreFault};
use crate::laws::homes;
use crate::store::{Job, Store};
use disk_model::Disk;

impl<D: Disk> Store<D> {
    /// Writes the logged sector with the least home.
    pub(crate) fn write_home(&mut self) -> Result<Progress, StoreFault>
        requires store { IsStore D.known D.cells D.sector_count self.old }
        requires stage { self.old.stage ≡ Free }
        requires some { self.old.dirty.images ≢ [] }
        requires job { MovesHome self.old.job }
        ensures goes { Goes D.known D.cells D.sector_count D.moment D.left_since self.old self.new }
        ensures done { (last : Action) → IsDoneBy D.known D.cells D.sector_count D.arming D.fault_count
            (home_action self.old.dirty.images self.old.unflushed last) result self.old.job (state_of self.old) self.old.disk self.new }
        ensures batch { self.new.batch ≡ self.old.batch }
    {
        homes();
        let Some(image) = self.dirty.first() else {
            unreachable!()
        };
        self.unflushed = true;
        match self.disk.write(image.home, &[image.sector]) {
            Ok(()) => {
                self.dirty.remove_first();
                Ok(Progress::More)
            }
            Err(_) => {
                self.job = Job::Idle;
                Err(StoreFault::WriteFault)
            }
        }
    }

    /// Flushes the sectors that were written home.
    pub(crate) fn flush_home(&mut self) -> Result<Progress, StoreFault>
        requires store { IsStore D.known D.cells D.sector_count self.old }
        requires stage { self.old.stage ≡ Free }
        requires none { self.old.dirty.images ≡ [] }
        requires some { IsTrue self.old.unflushed }
        requires job { MovesHome self.old.job }
        ensures goes { Goes D.known D.cells D.sector_count D.moment D.left_since self.old self.new }
        ensures done { (last : Action) → IsDoneBy D.known D.cells D.sector_count D.arming D.fault_count
            (home_action self.old.dirty.images self.old.unflushed last) result self.old.job (state_of self.old) self.old.disk self.new }
        ensures batch { self.new.batch ≡ self.old.batch }
    {
        homes();
        match self.disk.flush() {
            Ok(()) => {
                self.unflushed = false;
                if self.job == Job::WriteBack {
                    self.job = Job::Idle;
                    return Ok(Progress::Ended);
                }
                Ok(Progress::More)
            }
            Err(_) => {
                self.go_down();
                Err(StoreFault::FlushFault)
            }
        }
    }
}
