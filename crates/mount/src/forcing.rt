//! What a mount freed, made durable.

ghost use Rattle.std.specs.Prelude.{◌≡◌, ◌≤◌, ◌<◌, ◌+◌, ℕ, List, [], IsTrue, IfErr, OnOk, length};
ghost use Rattle.life_limits.specs.declared.TheConstants.{MAX_NUMBERS, MAX_RING, MOUNT_LIMIT};
ghost use Rattle.life_bytes.specs.declared.sector.Sector.{Sector};
ghost use Rattle.disk_model.specs.Disk.{IsAfterWrites, IsImage};
ghost use Rattle.log_store.specs.declared.store.Job.TheVariants.{Idle};
ghost use Rattle.log_store.specs.declared.store.Stage.TheVariants.{Free};
ghost use Rattle.log_store.specs.OnDisk.{ReplaysTo};
ghost use Rattle.log_store.specs.Outcome.{Rises};
ghost use Rattle.log_store.specs.State.{state_of};
ghost use Rattle.log_store.specs.Steps.{Goes, IsStore};
ghost use Rattle.mount.specs.Coming.{IsForceFault};
ghost use Rattle.mount.specs.Faults.{IsDeviceCause};

use crate::fault::MountFault;
use disk_model::Disk;
use log_store::{Store, StoreFault};

/// Makes every commit of a store that has just begun durable. It is not down, and its positions don't end: so a write or a flush of the disk failed, or nothing did.
pub(crate) fn force_new<D: Disk>(store: &mut Store<D>) -> Result<(), MountFault>
    requires store { IsStore D.known D.cells D.sector_count store.old }
    requires rests { (store.old.job ≡ Idle) × (store.old.stage ≡ Free) }
    requires position { store.old.positions.head < MOUNT_LIMIT }
    requires ring { store.old.ring ≤ MAX_RING }
    requires few { length store.old.queue.items ≤ MAX_NUMBERS }
    ensures goes { Goes D.known D.cells D.sector_count D.moment D.left_since store.old store.new }
    ensures idle { store.new.job ≡ Idle }
    ensures all { OnOk result ((store.new.queue.items ≡ []) × (store.new.stage ≡ Free)) }
    ensures left { IsTrue D.known → (image : List Sector) → IsImage (D.cells store.new.disk) image → ReplaysTo (state_of store.new) (D.cells store.new.disk) image }
    ensures rises { Rises 0 0 (state_of store.old) (state_of store.new) }
    ensures fault { IfErr result IsForceFault }
    ensures device { IfErr result (IsDeviceCause (D.fault_count store.old.disk) (D.fault_count store.new.disk)) }
    ensures count { D.fault_count store.old.disk ≤ D.fault_count store.new.disk }
    ensures sectors { D.sector_count store.new.disk ≡ D.sector_count store.old.disk }
    ensures arming { IsAfterWrites (D.arming store.old.disk) (D.arming store.new.disk) }
{
    let forced = store.force();
    store.images_replay();
    match forced {
        Ok(_) => Ok(()),
        Err(StoreFault::WriteFault) => Err(MountFault::WriteFault),
        Err(StoreFault::FlushFault) => Err(MountFault::FlushFault),
        Err(StoreFault::PositionEnd) => unreachable!(),
        Err(StoreFault::Down { .. }) => unreachable!(),
    }
}
