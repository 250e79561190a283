// The end of a mount of a run.

ghost use Rattle.std.specs.Prelude.{◌≡◌, ◌≤◌, ℕ, List, IfErr, IfOk, IsTrue};
ghost use Rattle.disk_model.specs.Disk.{IsAfterWrites};
ghost use Rattle.life_table.specs.declared.table.Table.{Table};
ghost use Rattle.log_store.specs.State.{state_of};
ghost use Rattle.log_store.specs.declared.store.Stage.TheVariants.{Down};
ghost use Rattle.mount.specs.Still.{IsEndCause};
ghost use Rattle.mounted_calls.specs.Running.{IsRunning};
ghost use Rattle.run_history.specs.Mounts.{MountStory, left};
ghost use Rattle.run_mounts.specs.Ends.{EndsDown, IsStillUp, StandsEnded, all_acknowledged, disk_of_end};
ghost use Rattle.run_mounts.specs.Safe.{StandsBehind};

use crate::laws::ended_mounts_stand_safe;
use disk_model::Disk;
use life_table::{Listed, MountRecord};
use mount::{Mounted, StillMounted, unmount};
use mounted_calls::{ended_logs_leave_all_changes, logs_leave_first_changes, logs_move_on};
use std::alloc::Global;

/// A mount that has ended.
#[derive(Drop)]
pub struct EndedMount<D> {
    pub disk: D,
    /// What happened in it. All of its changes are acknowledged.
    pub story: MountRecord,
}

/// A record of nothing, which stands in for that of a mount while it ends.
fn no_story(alloc: Global) -> MountRecord {
    MountRecord {
        base: 0,
        kept: 0,
        freed: 0,
        entries: Listed::new(alloc),
        froms: Listed::new(alloc),
        acknowledged: 0,
    }
}

/// The record with so many changes acknowledged.
fn acknowledging(story: MountRecord, changes: u64) -> MountRecord
    ensures { result ≡ record story { acknowledged = changes } }
{
    let mut story = story;
    story.acknowledged = changes;
    story
}

/// A mount that did not end, with its record.
fn still_with<D: Disk>(still: StillMounted<D>, story: MountRecord) -> StillMounted<D>
    ensures { result ≡ record still { mounted = record still.mounted { story = story } } }
{
    let mut still = still;
    still.mounted.story = story;
    still
}

/// Ends a mount: every change becomes durable and is written home. Where it does not end, the mount goes on, and may be ended again.
///
/// No row of it may await being freed: a mount on which only whole calls were made, of actors who keep what they made, has none.
pub fn end_mount<D: Disk>(
    alloc: Global,
    mounted: Mounted<D>,
) -> Result<EndedMount<D>, StillMounted<D>>
    requires { (start : Table) × (t : Table) × IsRunning D.known D.cells D.sector_count start t mounted }
    ensures story { IfOk result (λ ended. ended.story ≡ all_acknowledged mounted.story) }
    ensures still { IfErr result (λ still. IsStillUp D.known D.cells D.sector_count mounted still.mounted) }
    ensures safe { IsTrue D.known → (first : Table) (number : ℕ) (past : List MountStory) (start t : Table) → IsRunning D.known D.cells D.sector_count start t mounted
        → StandsBehind first number past left start mounted.story (D.cells mounted.store.disk) → StandsEnded D.cells first number past start result }
    ensures cause { IfErr result (λ still. IsEndCause still.fault (state_of mounted.store) (state_of still.mounted.store)
        (D.fault_count mounted.store.disk) (D.fault_count still.mounted.store.disk)) }
    ensures down { (fault : ℕ) → mounted.store.stage ≡ Down fault → EndsDown fault mounted.store.disk result }
    ensures count { D.fault_count mounted.store.disk ≤ D.fault_count (disk_of_end result) }
    ensures arming { IsAfterWrites (D.arming mounted.store.disk) (D.arming (disk_of_end result)) }
{
    ended_mounts_stand_safe();
    logs_move_on();
    ended_logs_leave_all_changes();
    logs_leave_first_changes();
    let changes = mounted.store.next_commit() - mounted.story.base;
    let Mounted {
        groups,
        store,
        geometry,
        story,
    } = mounted;
    match unmount(Mounted {
        groups,
        store,
        geometry,
        story: no_story(alloc),
    }) {
        Ok(disk) => Ok(EndedMount {
            disk,
            story: acknowledging(story, changes),
        }),
        Err(still) => {
            still.mounted.store.images_replay();
            Err(still_with(still, story))
        }
    }
}
