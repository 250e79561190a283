// Stores on disks that can be stopped, for tests of stops.
ghost use Rattle.std.specs.Prelude.{◌≡◌, ◌↔◌, ◌≤◌, ℕ, List, Some};
ghost use Rattle.life_bytes.specs.declared.sector.Sector.{Sector};
ghost use Rattle.log_store.specs.State.{state_of};
ghost use Rattle.log_store.specs.Steps.{IsStore};

use crate::store::Store;
use disk_model::Stops;

impl<D: Stops> Store<D> {
    /// Arms a stop of the disk, in place of one that is armed: of the `writes`-th write from now on, counted from 1, only
    /// the first `sectors` sectors pass, and from then on every call of the disk fails. A disk that has stopped stays so.
    /// Nothing but what is armed changes.
    pub fn arm(&mut self, writes: u64, sectors: u64)
        requires { 1 ≤ writes }
        ensures rest { self.new ≡ record self.old { disk = self.new.disk } }
        ensures store { IsStore D.known D.cells D.sector_count self.old → IsStore D.known D.cells D.sector_count self.new }
        ensures state { state_of self.new ≡ state_of self.old }
        ensures armed { D.arming self.new.disk ≡ record (D.arming self.old.disk)
            { armed = Some (record { writes = writes; sectors = sectors }) } }
        ensures cells { D.cells self.new.disk ≡ D.cells self.old.disk }
        ensures moment { D.moment self.new.disk ≡ D.moment self.old.disk }
        ensures left { (since : ℕ) (image : List Sector) →
            D.left_since self.new.disk since image ↔ D.left_since self.old.disk since image }
        ensures sectors { D.sector_count self.new.disk ≡ D.sector_count self.old.disk }
        ensures count { D.fault_count self.new.disk ≡ D.fault_count self.old.disk }
    {
        self.disk.arm(writes, sectors);
    }

    /// Whether the disk has stopped.
    pub fn stopped(&self) -> bool
        ensures { result ≡ (D.arming self.now.disk).stopped }
    {
        self.disk.stopped()
    }
}
