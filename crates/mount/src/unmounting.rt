//! The end of a mount.

ghost use Rattle.std.specs.Prelude.{ℕ, ◌≡◌, ◌≤◌, ◌+◌, List, IsTrue, IfErr, IfOk};
ghost use Rattle.life_bytes.specs.declared.sector.Sector.{Sector};
ghost use Rattle.disk_model.specs.Disk.{Elapses, IsAfterWrites, IsImage};
ghost use Rattle.geometry.specs.declared.shape.Geometry.{Geometry};
ghost use Rattle.life_table.specs.declared.table.Table.{Table};
ghost use Rattle.log_store.specs.declared.store.Job.TheVariants.{Idle};
ghost use Rattle.log_store.specs.declared.store.Stage.TheVariants.{Down};
ghost use Rattle.log_store.specs.State.{state_of};
ghost use Rattle.log_store.specs.Steps.{IsStore};
ghost use Rattle.sound_image.specs.Encoding.{Layouts};
ghost use Rattle.mount.specs.Ending.{IsStoreOf, IsWholeLeft};
ghost use Rattle.mount.specs.Prefixes.{IsPrefixLeft};
ghost use Rattle.mount.specs.Still.{IsEndCause, IsStillDown, KeepsMount, disk_after};

use crate::fault::EndFault;
use crate::homing::bring_home;
use crate::laws::calls_leave_prefixes;
use crate::mounted::{Mounted, StillMounted};
use disk_model::Disk;

/// Ends a mount: makes every commit durable, writes all logged sectors home, and covers the log. Every change of the groups has to be with the store, and nobody may hold
/// an inode without links, or the next mount frees it.
///
/// Where it does not end, what is mounted is handed back, and may be ended again: only a store that is down stays so.
pub fn unmount<D: Disk>(mounted: Mounted<D>) -> Result<D, StillMounted<D>>
    requires store { IsStore D.known D.cells D.sector_count mounted.store }
    requires idle { mounted.store.job ≡ Idle }
    // Whatever table the store's base encodes, what a stop leaves at any moment, and of what is handed back, represents that table after the first so many of the
    // commits that waited.
    ensures every_moment { IsTrue D.known → (g : Geometry) (t : Table) (layouts : Layouts) → IsStoreOf g t layouts (state_of mounted.store) (D.cells mounted.store.disk)
        → Elapses (D.moment mounted.store.disk) (D.moment (disk_after result)) (D.left_since mounted.store.disk) (D.left_since (disk_after result))
        (IsPrefixLeft g t layouts mounted.store.queue.items (mounted.store.durable + 1)) }
    ensures left { IsTrue D.known → (g : Geometry) (t : Table) (layouts : Layouts) (image : List Sector) → IsStoreOf g t layouts (state_of mounted.store) (D.cells mounted.store.disk)
        → IsImage (D.cells (disk_after result)) image → IsPrefixLeft g t layouts mounted.store.queue.items (mounted.store.durable + 1) image }
    // Where it ended, all of them are there, and the log is one cover.
    ensures ended { IsTrue D.known → (g : Geometry) (t : Table) (layouts : Layouts) → IsStoreOf g t layouts (state_of mounted.store) (D.cells mounted.store.disk)
        → IfOk result (λ disk. (image : List Sector) → IsImage (D.cells disk) image → IsWholeLeft g t layouts mounted.store.queue.items (mounted.store.durable + 1) image) }
    ensures still { IfErr result (λ still. KeepsMount D.known D.cells D.sector_count D.moment D.left_since mounted still.mounted) }
    ensures cause { IfErr result (λ still. IsEndCause still.fault (state_of mounted.store) (state_of still.mounted.store)
        (D.fault_count mounted.store.disk) (D.fault_count still.mounted.store.disk)) }
    ensures down { (fault : ℕ) → mounted.store.stage ≡ Down fault → IsStillDown fault mounted.store.disk result }
    ensures count { D.fault_count mounted.store.disk ≤ D.fault_count (disk_after result) }
    ensures arming { IsAfterWrites (D.arming mounted.store.disk) (D.arming (disk_after result)) }
{
    calls_leave_prefixes();
    let Mounted {
        groups,
        mut store,
        geometry,
        story,
    } = mounted;
    let home = bring_home(&mut store);
    store.images_replay();
    match home {
        Ok(()) => Ok(store.into_disk()),
        Err(fault) => Err(StillMounted {
            mounted: Mounted {
                groups,
                store,
                geometry,
                story,
            },
            fault: EndFault::from(fault),
        }),
    }
}
