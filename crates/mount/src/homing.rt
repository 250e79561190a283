// All that a store was given brought home.

ghost use Rattle.std.specs.Prelude.{ℕ, ◌≡◌, ◌≤◌, ◌+◌, List, [], length, IsTrue, IfErr, OnOk};
ghost use Rattle.life_bytes.specs.declared.sector.Sector.{Sector};
ghost use Rattle.disk_model.specs.Disk.{IsAfterWrites, IsImage};
ghost use Rattle.log_store.specs.declared.store.Job.TheVariants.{Idle};
ghost use Rattle.log_store.specs.declared.store.Stage.TheVariants.{Down};
ghost use Rattle.log_store.specs.OnDisk.{HasCover};
ghost use Rattle.log_store.specs.State.{state_of};
ghost use Rattle.log_store.specs.Steps.{Goes, IsStore};
ghost use Rattle.mount.specs.Ending.{IsHomeFault};

use disk_model::Disk;
use log_store::{Store, StoreFault};

/// Writes all logged sectors home, and covers the log, where every commit is durable.
fn cover_home<D: Disk>(store: &mut Store<D>) -> Result<(), StoreFault>
    requires store { IsStore D.known D.cells D.sector_count store.old }
    requires idle { store.old.job ≡ Idle }
    requires all { store.old.queue.items ≡ [] }
    ensures goes { Goes D.known D.cells D.sector_count D.moment D.left_since store.old store.new }
    ensures idle { store.new.job ≡ Idle }
    ensures all { store.new.queue.items ≡ [] }
    ensures cover { IsTrue D.known → OnOk result ((image : List Sector) → IsImage (D.cells store.new.disk) image
        → (position : ℕ) × HasCover store.old.anchor store.old.ring position (store.old.durable + 1) image) }
    ensures fault { IfErr result (λ fault. IsHomeFault fault (state_of store.old) (state_of store.new) (D.fault_count store.old.disk) (D.fault_count store.new.disk)) }
    ensures down { (fault : ℕ) → store.old.stage ≡ Down fault → (result ≡ Err (StoreFault.Down fault)) × (store.new.disk ≡ store.old.disk) }
    ensures count { D.fault_count store.old.disk ≤ D.fault_count store.new.disk }
    ensures arming { IsAfterWrites (D.arming store.old.disk) (D.arming store.new.disk) }
{
    match store.write_back() {
        Ok(()) => store.cover(),
        Err(fault) => Err(fault),
    }
}

/// Makes every commit durable, writes all logged sectors home, and covers the log.
pub(crate) fn bring_home<D: Disk>(store: &mut Store<D>) -> Result<(), StoreFault>
    requires store { IsStore D.known D.cells D.sector_count store.old }
    requires idle { store.old.job ≡ Idle }
    ensures goes { Goes D.known D.cells D.sector_count D.moment D.left_since store.old store.new }
    ensures idle { store.new.job ≡ Idle }
    ensures all { OnOk result (store.new.queue.items ≡ []) }
    ensures cover { IsTrue D.known → OnOk result ((image : List Sector) → IsImage (D.cells store.new.disk) image
        → (position : ℕ) × HasCover store.old.anchor store.old.ring position (store.old.durable + length store.old.queue.items + 1) image) }
    ensures fault { IfErr result (λ fault. IsHomeFault fault (state_of store.old) (state_of store.new) (D.fault_count store.old.disk) (D.fault_count store.new.disk)) }
    ensures down { (fault : ℕ) → store.old.stage ≡ Down fault → (result ≡ Err (StoreFault.Down fault)) × (store.new.disk ≡ store.old.disk) }
    ensures count { D.fault_count store.old.disk ≤ D.fault_count store.new.disk }
    ensures arming { IsAfterWrites (D.arming store.old.disk) (D.arming store.new.disk) }
{
    match store.force() {
        Ok(_) => cover_home(store),
        Err(fault) => Err(fault),
    }
}
