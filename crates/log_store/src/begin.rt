// The start and the end of a store, and what may be asked of it.
ghost use Rattle.std.specs.Prelude.{◌≡◌, ◌≤◌, ◌<◌, ◌+◌, ◌-◌, ◌^◌, ◌↔◌, ◌≢◌, List, [], length, IsTrue, IfOk, IfErr, Some, None};
ghost use Rattle.life_limits.specs.declared.TheConstants.{MAX_RING, MIN_RING, MOUNT_LIMIT};
ghost use Rattle.life_bytes.specs.declared.sector.Sector.{Sector};
ghost use Rattle.disk_model.specs.Disk.{HasOneImage, IsImage, as_read};
ghost use Rattle.log_image.specs.Anchor.{HasAnchor};
ghost use Rattle.log_image.specs.Log.{AreBelow, ring_part};
ghost use Rattle.log_store.specs.declared.store.Job.TheVariants.{Idle};
ghost use Rattle.log_store.specs.declared.store.Stage.TheVariants.{Down, Free};
ghost use Rattle.log_store.specs.OnDisk.{ReplaysTo};
ghost use Rattle.log_store.specs.State.{state_of};
ghost use Rattle.log_store.specs.Steps.{IsNew, IsStore};
ghost use Rattle.log_store.specs.Outcome.{down_count};

use crate::laws::states;
use crate::store::{Job, Stage, Store};
use disk_model::Disk;
use life_bytes::Sector;
use life_limits::MAX_RECORD_SECTORS;
use life_ports::NoMemory;
use log_batch::{Batch, DirtySectors};
use log_image::logs;
use log_ring::Positions;
use std::alloc::Global;
use std::collections::VecDeque;

/// A store over a disk whose log is empty: it has its anchor at this sector, with this position and number of the
/// next commit, and no sector of the ring has reached that position.
pub fn begin_store<D: Disk>(
    alloc: Global,
    disk: D,
    anchor: u64,
    ring: u32,
    position: u64,
    next_commit: u64,
) -> Result<Store<D>, (D, NoMemory)>
    requires place { anchor + 1 + ring ≤ D.sector_count disk }
    requires least_ring { MIN_RING ≤ ring }
    requires most_ring { ring ≤ MAX_RING }
    requires position { (ring ≤ position) × (position < MOUNT_LIMIT) }
    requires number { (1 ≤ next_commit) × (next_commit < MOUNT_LIMIT) }
    requires one { IsTrue D.known → HasOneImage (D.cells disk) }
    requires anchor { IsTrue D.known → HasAnchor (as_read (D.cells disk)) anchor ring position next_commit }
    requires below { IsTrue D.known → AreBelow (ring_part anchor ring (as_read (D.cells disk))) position }
    ensures store { IfOk result (IsStore D.known D.cells D.sector_count) }
    ensures start { IfOk result (IsNew disk anchor ring position next_commit) }
    ensures handed_back { IfErr result (λ fault. fault.0 ≡ disk) }
{
    logs();
    let _sectors = disk.sectors();
    let batch = match Batch::new(alloc) {
        Ok(batch) => batch,
        Err(fault) => return Err((disk, fault)),
    };
    let sectors = match vec![in alloc; Sector::zero(); MAX_RECORD_SECTORS as usize] {
        Ok(sectors) => sectors,
        Err(_) => return Err((disk, NoMemory)),
    };
    Ok(Store {
        disk,
        anchor,
        ring,
        positions: Positions::new(ring, position),
        durable: next_commit - 1,
        queue: VecDeque::new(alloc),
        dirty: DirtySectors::new(alloc),
        waiting: 0,
        spare: 0,
        unflushed: false,
        batch,
        taken: 0,
        sectors,
        count: 0,
        stage: Stage::Free,
        job: Job::Idle,
    })
}

impl<D: Disk> Store<D> {
    /// Whether a commit is not durable.
    pub fn pending(&self) -> bool
        ensures { IsTrue result ↔ (self.now.queue.items ≢ []) }
    {
        !self.queue.is_empty()
    }

    /// Whether a logged sector is not home.
    pub fn dirty(&self) -> bool
        ensures { IsTrue result ↔ (self.now.dirty.images ≢ []) }
    {
        !self.dirty.is_empty()
    }

    /// The greatest number of a durable commit.
    pub fn durable(&self) -> u64
        ensures { result ≡ self.now.durable }
    {
        self.durable
    }

    /// The number that the next commit gets that is taken.
    pub fn next_commit(&self) -> u64
        requires { IsStore D.known D.cells D.sector_count self.now }
        ensures { result ≡ self.now.durable + length self.now.queue.items + 1 }
    {
        self.durable + self.queue.len() as u64 + 1
    }

    /// Law: between two calls, each image that a crash may leave of the disk replays to the base, with the images of
    /// some first commits of the list over it.
    pub fn images_replay(&self)
        requires { IsStore D.known D.cells D.sector_count self.now }
        ensures { IsTrue D.known → (image : List Sector) → IsImage (D.cells self.now.disk) image
            → ReplaysTo (state_of self.now) (D.cells self.now.disk) image }
    {
        states();
    }

    /// The disk's count of faults after the failure that took the store down, if it is down.
    pub fn stop_state(&self) -> Option<u64>
        ensures { result ≡ down_count self.now.stage }
    {
        match self.stage {
            Stage::Down(fault) => Some(fault),
            _ => None,
        }
    }

    /// Gives the disk back.
    pub fn into_disk(self) -> D
        ensures { result ≡ self.disk }
    {
        let Store { disk, .. } = self;
        disk
    }
}
