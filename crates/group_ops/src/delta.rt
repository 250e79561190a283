// What a change makes anew of a group's state.

use crate::buffers::ChunkBuffers;
use group_space::SpaceChange;
use inode_cache::Incore;
use inode_core::Core;
use life_bytes::Sector;

/// The head of an unlinked bucket as a change sets it.
#[derive(Clone, Copy, Debug, PartialEq, Eq)]
pub struct Head {
    pub bucket: u32,
    pub agino: u32,
}

/// The inode before the changed one in its unlinked bucket, as a change sets its next pointer: its core, and its whole sector.
#[derive(Clone, Copy, Debug, PartialEq, Eq)]
pub struct Prior {
    pub agino: u32,
    pub core: Core,
    pub sector: Sector,
}

/// How a change of an inode's list sets pointers: a head, or the next pointer of the inode before it; and the next pointer of the inode itself.
#[derive(Clone, Copy, Debug, PartialEq, Eq)]
pub struct Relink {
    pub head: Option<Head>,
    pub prior: Option<Prior>,
    pub next: u32,
}

/// What a change makes anew of a group's state, beside it. What it does not change is not copied.
#[derive(Drop)]
pub struct Delta {
    /// The inode that the change is of, by its number in the group.
    pub agino: u32,
    pub inode: Incore,
    pub head: Option<Head>,
    pub prior: Option<Prior>,
    pub space: SpaceChange,
    /// The buffers of a chunk that the change adds.
    pub chunk: Option<ChunkBuffers>,
}
