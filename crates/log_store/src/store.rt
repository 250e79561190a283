// The store, and what of it is on the disk.
use disk_model::Disk;
use life_bytes::Sector;
use log_batch::{Batch, DirtySectors};
use log_record::Commit;
use log_ring::Positions;
use std::collections::VecDeque;

/// How far the store is with what it writes to the ring.
#[derive(Clone, Copy, Debug, PartialEq, Eq)]
pub(crate) enum Stage {
    /// All that was written to the ring is flushed.
    Free,
    /// A record's sectors up to the ring's end were written, and the others are not yet.
    Half,
    /// A record was written, and is not flushed.
    Record,
    /// A cover was written, and is not flushed.
    Cover,
    /// A write of the log or a flush failed, and the disk's count of faults was this after it.
    Down(u64),
}

/// What the store is at.
#[derive(Clone, Copy, Debug, PartialEq, Eq)]
pub(crate) enum Job {
    /// No job is going.
    Idle,
    /// A job that has nothing to do.
    Nothing,
    /// To make every commit durable.
    Force,
    /// The same, but first room is made for the next record.
    Clear,
    /// To write every logged sector home, and to move the tail.
    Home,
    /// To write every logged sector home.
    WriteBack,
}

/// Commits that become durable in order, on a disk with a log.
#[derive(Drop)]
pub struct Store<D: Disk> {
    pub(crate) disk: D,
    /// The sector of the log's anchor. The ring is behind it.
    pub(crate) anchor: u64,
    /// The number of the ring's sectors.
    pub(crate) ring: u32,
    pub(crate) positions: Positions,
    /// The greatest number of a durable commit.
    pub(crate) durable: u64,
    /// The commits that are not durable, the oldest first.
    pub(crate) queue: VecDeque<Commit>,
    /// The logged sectors that are not home.
    pub(crate) dirty: DirtySectors,
    /// How many images the queue's commits have.
    pub(crate) waiting: usize,
    /// For how many more there is room beside those.
    pub(crate) spare: usize,
    /// Whether sectors were written home since the last flush.
    pub(crate) unflushed: bool,
    /// The images of the record that is being written.
    pub(crate) batch: Batch,
    /// How many commits it has.
    pub(crate) taken: u32,
    /// Its sectors, and room for others.
    pub(crate) sectors: Vec<Sector>,
    /// How many sectors it has.
    pub(crate) count: u32,
    pub(crate) stage: Stage,
    pub(crate) job: Job,
}
