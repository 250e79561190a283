//! A mount.

ghost use Rattle.std.specs.Prelude.{◌≡◌, ◌≤◌, ◌<◌, ◌+◌, ℕ, List, [], IsTrue, IfOk, IfErr, OnOk, IsSomeAnd, Some};
ghost use Rattle.life_limits.specs.declared.TheConstants.{MOUNT_LIMIT};
ghost use Rattle.life_ports.specs.Faults.{NeverFalls};
ghost use Rattle.disk_model.specs.Disk.{Elapses, IsAfterWrites, as_read};
ghost use Rattle.geometry.specs.declared.shape.Geometry.{Geometry};
ghost use Rattle.geometry.specs.Places.{anchor_of};
ghost use Rattle.geometry.specs.Shape.{IsGeometry};
ghost use Rattle.life_table.specs.declared.table.Table.{Table};
ghost use Rattle.life_table.specs.History.{closed};
ghost use Rattle.log_store.specs.State.{state_of};
ghost use Rattle.sound_image.specs.Encoding.{Layouts};
ghost use Rattle.whole_image.specs.Damage.{IsSound};
ghost use Rattle.orphan_frees.specs.Loaded.{AreGroups, AreGroupsOf};
ghost use Rattle.mount.specs.Coming.{AreFreed, Comes, ComesTo, IsAnew, IsAtStart, IsClean, IsReady, LeftByBegin, LeftByForce, LeftByFrees, LeftByRise};
ghost use Rattle.mount.specs.Ending.{IsStoreOf};
ghost use Rattle.mount.specs.Faults.{IsDeviceCause, IsMountCause};
ghost use Rattle.mount.specs.Images.{IsImageOf, IsLeftInMount};
ghost use Rattle.mount.specs.Mounts.{ArmsDown, IsBegun, IsLeftDown, IsMountOf, IsStoryOf, IsUp, disk_of};
ghost use Rattle.mount.specs.Positions.{ArePositionsUsedUp};

use crate::fault::MountFault;
use crate::forcing::force_new;
use crate::freeing::{Freed, free_all, story_of_none};
use crate::laws::{calls_leave_prefixes, recovered_disks_are_clean};
use crate::loading::{load_groups, sectors_of};
use crate::mounted::{Mounted, NotMounted};
use crate::recovering::{Recovery, recover};
use disk_model::Disk;
use geometry::Geometry;
use group_ops::GroupState;
use life_ports::NoMemory;
use life_table::MountRecord;
use log_store::{Store, begin_store};
use std::alloc::Global;

/// A mount that did not come up, and freed nothing.
fn nothing_freed<D: Disk>(alloc: Global, disk: D, fault: MountFault, base: u64) -> NotMounted<D>
    ensures disk { result.disk ≡ disk }
    ensures fault { result.fault ≡ fault }
    ensures begun { IsSomeAnd result.begun (IsStoryOf base [] 0) }
{
    NotMounted {
        disk,
        fault,
        begun: Some(story_of_none(alloc, base)),
    }
}

/// The record of a mount whose frees are durable.
fn acknowledged(story: MountRecord) -> MountRecord
    ensures { result ≡ record story { acknowledged = story.freed } }
{
    let mut story = story;
    story.acknowledged = story.freed;
    story
}

/// Makes what was freed durable. The mount is up then.
fn finish<D: Disk>(
    store: Store<D>,
    freed: Freed,
    geometry: Geometry,
) -> Result<Mounted<D>, NotMounted<D>>
    requires ready { IsReady D.known D.cells D.sector_count geometry freed.story.base store freed }
    ensures comes_to { IsTrue D.known → (t : Table) (layouts : Layouts) → IsStoreOf geometry t layouts (state_of store) (D.cells store.disk)
        → AreFreed geometry t layouts freed.story.base store.queue.items freed → ComesTo D.cells geometry t layouts freed.story.base result }
    ensures comes { Comes D.known D.cells D.sector_count D.fault_count D.arming store.disk result }
    ensures every_moment { IsTrue D.known → Elapses (D.moment store.disk) (D.moment (disk_of result)) (D.left_since store.disk) (D.left_since (disk_of result))
        (LeftByForce D.cells geometry freed.story.base store freed) }
{
    calls_leave_prefixes();
    let mut store = store;
    let Freed { groups, story } = freed;
    match force_new(&mut store) {
        Ok(()) => Ok(Mounted {
            groups,
            store,
            geometry,
            story: acknowledged(story),
        }),
        Err(fault) => Err(NotMounted {
            disk: store.into_disk(),
            fault,
            begun: Some(story),
        }),
    }
}

/// Frees the rows without links, and makes that durable.
fn free<D: Disk>(
    alloc: Global,
    store: Store<D>,
    states: Vec<GroupState>,
    geometry: Geometry,
    base: u64,
) -> Result<Mounted<D>, NotMounted<D>>
    requires start { IsAtStart D.known D.cells D.sector_count geometry base store }
    requires none { store.queue.items ≡ [] }
    requires groups { AreGroups geometry states.items }
    ensures comes_to { IsTrue D.known → (t : Table) (layouts : Layouts) → IsStoreOf geometry t layouts (state_of store) (D.cells store.disk) → closed t ≡ t
        → AreGroupsOf geometry t layouts states.items → ComesTo D.cells geometry t layouts base result }
    ensures comes { Comes D.known D.cells D.sector_count D.fault_count D.arming store.disk result }
    ensures every_moment { IsTrue D.known → Elapses (D.moment store.disk) (D.moment (disk_of result)) (D.left_since store.disk) (D.left_since (disk_of result))
        (LeftByFrees D.cells geometry base store states.items) }
{
    calls_leave_prefixes();
    let mut store = store;
    store.images_replay();
    match free_all(alloc, states, &mut store, base) {
        Ok(freed) => finish(store, freed, geometry),
        Err(NoMemory) => {
            let disk = store.into_disk();
            Err(nothing_freed(alloc, disk, MountFault::NoMemory, base))
        }
    }
}

/// Begins the log of a disk that was recovered, frees the rows without links of its groups, and makes that durable.
fn begin<D: Disk>(
    alloc: Global,
    disk: D,
    states: Vec<GroupState>,
    recovery: &Recovery,
) -> Result<Mounted<D>, NotMounted<D>>
    requires shape { IsGeometry recovery.now.geometry }
    requires size { anchor_of recovery.now.geometry + 1 + recovery.now.geometry.ring ≤ D.sector_count disk }
    requires position { (recovery.now.geometry.ring ≤ recovery.now.start.position) × (recovery.now.start.position < MOUNT_LIMIT) }
    requires number { (1 ≤ recovery.now.start.next_commit) × (recovery.now.start.next_commit < MOUNT_LIMIT) }
    requires anew { IsTrue D.known → IsAnew recovery.now.geometry recovery.now.start (D.cells disk) }
    requires groups { AreGroups recovery.now.geometry states.items }
    ensures comes_to { IsTrue D.known → (t : Table) (layouts : Layouts) → IsClean recovery.now.geometry t layouts recovery.now.start (D.cells disk)
        → AreGroupsOf recovery.now.geometry t layouts states.items → ComesTo D.cells recovery.now.geometry t layouts recovery.now.start.next_commit result }
    ensures comes { Comes D.known D.cells D.sector_count D.fault_count D.arming disk result }
    ensures every_moment { IsTrue D.known → Elapses (D.moment disk) (D.moment (disk_of result)) (D.left_since disk) (D.left_since (disk_of result))
        (LeftByBegin recovery.now.geometry recovery.now.start (D.cells disk) states.items) }
{
    let g = recovery.geometry;
    let start = recovery.start;
    match begin_store(
        alloc,
        disk,
        sectors_of(&g),
        g.ring,
        start.position,
        start.next_commit,
    ) {
        Ok(store) => free(alloc, store, states, g, start.next_commit),
        Err((disk, NoMemory)) => Err(nothing_freed(
            alloc,
            disk,
            MountFault::NoMemory,
            start.next_commit,
        )),
    }
}

/// Loads the groups of a disk that was recovered, frees their rows without links, and makes that durable.
fn come_up<D: Disk>(
    alloc: Global,
    disk: D,
    recovery: &Recovery,
) -> Result<Mounted<D>, NotMounted<D>>
    requires shape { IsGeometry recovery.now.geometry }
    requires size { anchor_of recovery.now.geometry + 1 + recovery.now.geometry.ring ≤ D.sector_count disk }
    requires position { (recovery.now.geometry.ring ≤ recovery.now.start.position) × (recovery.now.start.position < MOUNT_LIMIT) }
    requires number { (1 ≤ recovery.now.start.next_commit) × (recovery.now.start.next_commit < MOUNT_LIMIT) }
    requires anew { IsTrue D.known → IsAnew recovery.now.geometry recovery.now.start (D.cells disk) }
    ensures comes_to { IsTrue D.known → (t : Table) (layouts : Layouts) → IsClean recovery.now.geometry t layouts recovery.now.start (D.cells disk)
        → ComesTo D.cells recovery.now.geometry t layouts recovery.now.start.next_commit result }
    ensures comes { Comes D.known D.cells D.sector_count D.fault_count D.arming disk result }
    ensures every_moment { IsTrue D.known → Elapses (D.moment disk) (D.moment (disk_of result)) (D.left_since disk) (D.left_since (disk_of result))
        (LeftByRise recovery.now.geometry recovery.now.start (D.cells disk)) }
{
    let mut disk = disk;
    match load_groups(alloc, &mut disk, &recovery.geometry) {
        Ok(states) => begin(alloc, disk, states, recovery),
        Err(fault) => Err(nothing_freed(
            alloc,
            disk,
            MountFault::from(fault),
            recovery.start.next_commit,
        )),
    }
}

/// Mounts the image of a disk: recovers it, loads its groups, frees every row without links, each as one change, and makes that durable. Nobody holds an inode then.
///
/// The image stays what it represented, or is on the way from there to the table without such rows, wherever a stop comes. Where it does not come up, the disk is handed
/// back, and from the moment at which its log begins anew also a record of what was freed.
pub fn mount<D: Disk>(alloc: Global, disk: D) -> Result<Mounted<D>, NotMounted<D>>
    // Where the disk tells what it holds.
    ensures mounted { IsTrue D.known → (g : Geometry) (t : Table) (layouts : Layouts) (next : ℕ) → IsImageOf g t layouts next (as_read (D.cells disk))
        → IfOk result (IsMountOf D.cells g t layouts next) }
    ensures sound { IsTrue D.known → OnOk result (IsSound (as_read (D.cells disk)) × ¬ ArePositionsUsedUp (as_read (D.cells disk))) }
    ensures every_moment { IsTrue D.known → Elapses (D.moment disk) (D.moment (disk_of result)) (D.left_since disk) (D.left_since (disk_of result)) (IsLeftInMount (D.cells disk)) }
    ensures down { IsTrue D.known → IfErr result (λ down. IsLeftDown down.begun down.fault (D.cells disk) (D.cells down.disk)) }
    ensures cause { IsTrue D.known → IfErr result (λ down. IsMountCause (as_read (D.cells disk)) down.fault) }
    // Whether it tells or not.
    ensures up { IfOk result (IsUp D.known D.cells D.sector_count) }
    ensures begun { IfErr result (λ down. IsBegun down.begun) }
    ensures device { IfErr result (λ down. IsDeviceCause (D.fault_count disk) (D.fault_count down.disk) down.fault) }
    ensures count { NeverFalls (D.fault_count disk) (D.fault_count (disk_of result)) }
    ensures sectors { D.sector_count (disk_of result) ≡ D.sector_count disk }
    ensures writes { IfOk result (λ mounted. IsAfterWrites (D.arming disk) (D.arming mounted.store.disk)) }
    ensures writes_down { IfErr result (λ down. ArmsDown down.begun down.fault (D.arming disk) (D.arming down.disk)) }
{
    recovered_disks_are_clean();
    let mut disk = disk;
    match recover(alloc, &mut disk) {
        Ok(recovery) => come_up(alloc, disk, &recovery),
        Err(fault) => Err(NotMounted {
            disk,
            fault,
            begun: None,
        }),
    }
}
