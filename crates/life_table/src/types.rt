// Rows, calls, replies, and what a mount records of them.

use crate::key::Key;
use crate::list::Listed;
use extent_fork::Extent;

/// Block numbers, each counted in its group, in the order of the file.
pub type Blocks = Listed<u32>;

/// Runs of blocks, in the order of the file.
pub type Runs = Listed<Extent>;

/// The entries of a history, the first one first.
pub type Entries = Listed<Entry>;

/// For each entry of a history the number of entries at the begin of its call.
pub type Froms = Listed<u64>;

/// An inode that is in use.
#[derive(Debug, Drop)]
pub struct Row {
    /// How many names it has, at most 2^31 - 1. One without names stays while it is held.
    pub links: u32,
    /// Its blocks, in the order of the file.
    pub blocks: Blocks,
    /// How many holds there are on it, of all actors together, at most 2^28 - 1.
    pub opens: u32,
}

/// A call that an actor makes.
#[derive(Clone, Copy, Debug, PartialEq, Eq)]
pub enum Call {
    /// Makes an inode with one link in the group, which the caller then holds.
    Create { group: u32 },
    /// The same without links.
    Tmpfile { group: u32 },
    /// Takes a hold on an inode.
    OpenKey { key: Key },
    /// Gives up a hold.
    CloseKey { key: Key },
    Link { key: Key },
    Unlink { key: Key },
    /// Appends so many blocks.
    Grow { key: Key, count: u32 },
    /// Takes so many blocks away from the end.
    Cut { key: Key, count: u32 },
    /// Asks for the links and the blocks.
    Stat { key: Key },
    /// Makes all changes so far durable.
    Sync,
    /// Writes what the log holds to its home sectors.
    Home,
    /// Frees the inodes that the caller was the last to hold and that have no links.
    Gc,
    /// Copies the changed inodes of the group into their buffers.
    FlushInodes { group: u32 },
    /// Takes inodes of the group out of the cache.
    Reclaim { group: u32 },
}

/// What a call was answered.
#[derive(Debug, Drop)]
pub enum Reply {
    /// The call was made.
    Done,
    /// This inode was made.
    Made {
        key: Key,
    },
    /// What the row has: its links, how many blocks, and the longest runs that they make.
    Shown {
        key: Key,
        links: u32,
        blocks: u32,
        runs: Runs,
    },
    /// So many first changes of the mount are durable.
    Covered {
        changes: u64,
    },
    /// The key names no inode that can be opened.
    Stale,
    /// The inode has as many holds as it can.
    Crowded,
    /// No number of the group is free, and no chunk of inodes can be added.
    NoInodes,
    /// The group has fewer free blocks.
    NoSpace,
    /// The inode has as many links as it can.
    TooManyLinks,
    /// The inode has no link.
    NoLinks,
    /// With these blocks the inode would have more runs than a fork has room for.
    TooManyExtents,
    /// The inode has fewer blocks.
    CutTooFar,
    /// A write of the device failed.
    WriteFault,
    /// A flush of the device failed.
    FlushFault,
    /// The positions of the log are used up.
    PositionEnd,
    /// The log is down since a fault, after which the device had counted so many.
    Down {
        fault: u64,
    },
}

/// What happened.
#[derive(Debug, Drop)]
pub enum Event {
    /// A call was answered.
    Called { call: Call, reply: Reply },
    /// An inode without links and holds was freed.
    Freed { key: Key },
}

/// An event, and whose it was. Actors are numbered from 0; what recovery frees has actor 26.
#[derive(Debug, Drop)]
pub struct Entry {
    pub actor: u32,
    pub event: Event,
}

/// What happened in one mount.
#[derive(Debug, Drop)]
pub struct MountRecord {
    /// The number of the mount's first change. Changes are numbered over all mounts of an image, from 1.
    pub base: u64,
    /// How many changes of the mount before are kept.
    pub kept: u64,
    /// How many inodes the mount freed as it began.
    pub freed: u64,
    /// What happened, in order.
    pub entries: Entries,
    /// For each entry how many there were as its call began; for one of actor 26 its own place.
    pub froms: Froms,
    /// So many first changes were acknowledged.
    pub acknowledged: u64,
}
