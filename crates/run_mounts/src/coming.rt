// A mount that comes up in a run.

ghost use Rattle.std.specs.Prelude.{◌≡◌, ◌<◌, ◌≤◌, ◌+◌, ◌⊎◌, ℕ, List, None, IfErr, IfOk, IfSome, IsTrue, OnOk};
ghost use Rattle.std.specs.Option.{option_map};
ghost use Rattle.life_limits.specs.declared.TheConstants.{MAX_NUMBERS, MOUNT_LIMIT};
ghost use Rattle.life_ports.specs.Faults.{NeverFalls};
ghost use Rattle.disk_model.specs.Disk.{IsAfterWrites, as_read};
ghost use Rattle.life_table.specs.declared.table.Table.{Table};
ghost use Rattle.life_table.specs.History.{closed, recovered};
ghost use Rattle.log_store.specs.declared.store.Stage.TheVariants.{Free};
ghost use Rattle.whole_image.specs.Damage.{IsSound};
ghost use Rattle.mount.specs.Faults.{IsDeviceCause, IsMountCause};
ghost use Rattle.mount.specs.Mounts.{ArmsDown, disk_of};
ghost use Rattle.run_history.specs.Mounts.{MountStory};
ghost use Rattle.mounted_calls.specs.Running.{IsRunning};
ghost use Rattle.run_mounts.specs.Safe.{IsFreshWith, IsUpBehind, StandsDown, StandsSafe, base_behind, kept_behind, with_kept};

use disk_model::Disk;
use life_table::MountRecord;
use mount::{Mounted, NotMounted, mount, sound_images_are_of_tables};
use mounts_in_runs::{
    mounts_begin_where_runs_stand, mounts_leave_prefixes, mounts_that_came_up_run,
    refused_mounts_leave_prefixes, unbegun_mounts_leave_runs,
};
use orphan_frees::recovery_frees_in_order;
use std::alloc::Global;
use whole_image::sound_images_represent_a_table;

/// How many changes a mount keeps of the one before it, whose first change had the number `behind`: none where there was no mount.
fn kept_of(base: u64, behind: Option<u64>) -> u64
    ensures { result ≡ kept_behind base behind }
{
    match behind {
        Some(earlier) => base.saturating_sub(earlier),
        None => 0,
    }
}

/// The record of a mount, with what it keeps of the one before it.
fn keeping(story: MountRecord, behind: Option<u64>) -> MountRecord
    ensures { result ≡ with_kept behind story }
{
    let mut story = story;
    story.kept = kept_of(story.base, behind);
    story
}

/// The same of a record that there may be.
fn keeping_begun(begun: Option<MountRecord>, behind: Option<u64>) -> Option<MountRecord>
    ensures { result ≡ option_map (with_kept behind) begun }
{
    match begun {
        Some(story) => Some(keeping(story, behind)),
        None => None,
    }
}

/// Mounts a run's disk, behind the mount whose first change had the number `behind`, if there was one. The mount's record says how many changes of that one it keeps.
///
/// It begins from what the run's last mount left, and each row without links is freed. Where it does not come up, the disk is handed back, and what was freed meanwhile is recorded as a
/// mount that never came up.
pub fn mount_behind<D: Disk>(
    alloc: Global,
    disk: D,
    behind: Option<u64>,
) -> Result<Mounted<D>, NotMounted<D>>
    // Where the disk tells what it holds, and the run stands on it.
    ensures up { IsTrue D.known → (first : Table) (number : ℕ) (past : List MountStory) → StandsSafe first number past (D.cells disk) → behind ≡ base_behind past
        → IfOk result (IsUpBehind D.known D.cells D.sector_count first number past) }
    ensures down { IsTrue D.known → (first : Table) (number : ℕ) (past : List MountStory) → StandsSafe first number past (D.cells disk) → behind ≡ base_behind past
        → IfErr result (λ down. StandsDown first number past down.begun (D.cells down.disk)) }
    ensures sound { IsTrue D.known → OnOk result (IsSound (as_read (D.cells disk))) }
    ensures untouched { IsTrue D.known → IfErr result (λ down. IsSound (as_read (D.cells disk)) ⊎ ((down.begun ≡ None) × (D.cells down.disk ≡ D.cells disk))) }
    ensures cause { IsTrue D.known → IfErr result (λ down. IsMountCause (as_read (D.cells disk)) down.fault) }
    // Whether it tells or not.
    ensures running { IfOk result (λ mounted. (start : Table) × (closed start ≡ start) × IsRunning D.known D.cells D.sector_count start (recovered start) mounted) }
    ensures free { IfOk result (λ mounted. mounted.store.stage ≡ Free) }
    ensures fresh { IfOk result (λ mounted. IsFreshWith mounted.story.freed mounted.story) }
    ensures limits { IfOk result (λ mounted. (mounted.story.base < MOUNT_LIMIT) × (mounted.story.freed ≤ MAX_NUMBERS)) }
    ensures begun { IfErr result (λ down. IfSome down.begun (IsFreshWith 0)) }
    ensures device { IfErr result (λ down. IsDeviceCause (D.fault_count disk) (D.fault_count down.disk) down.fault) }
    ensures count { NeverFalls (D.fault_count disk) (D.fault_count (disk_of result)) }
    ensures sectors { D.sector_count (disk_of result) ≡ D.sector_count disk }
    ensures writes { IfOk result (λ mounted. IsAfterWrites (D.arming disk) (D.arming mounted.store.disk)) }
    ensures writes_down { IfErr result (λ down. ArmsDown down.begun down.fault (D.arming disk) (D.arming down.disk)) }
{
    mounts_begin_where_runs_stand();
    mounts_leave_prefixes::<D>();
    mounts_that_came_up_run::<D>();
    refused_mounts_leave_prefixes();
    unbegun_mounts_leave_runs();
    recovery_frees_in_order();
    sound_images_are_of_tables();
    sound_images_represent_a_table();
    match mount(alloc, disk) {
        Ok(mounted) => {
            let mut mounted = mounted;
            mounted.story = keeping(mounted.story, behind);
            Ok(mounted)
        }
        Err(down) => {
            let mut down = down;
            down.begun = keeping_begun(down.begun, behind);
            Err(down)
        }
    }
}
