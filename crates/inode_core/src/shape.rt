//! What an inode core tells.

/// The byte at which the checksum of a core stands: XFS names the field `di_crc`.
pub const CORE_CRC_AT: usize = 100;

/// The byte of an inode's sector at which its fork begins, right behind the core: where `XFS_DFORK_DPTR` of XFS points in an inode of version 3.
pub const FORK_AT: usize = 176;

/// An inode's fields.
#[derive(Clone, Copy, Debug, PartialEq, Eq)]
pub struct Core {
    /// Whether the inode is in use.
    pub live: bool,
    /// Names of the inode.
    pub links: u32,
    /// Bytes.
    pub size: u64,
    /// Blocks.
    pub blocks: u64,
    /// Runs of blocks, whose records the fork holds.
    pub extents: u32,
    pub generation: u32,
    /// The next inode of its unlinked bucket by its place in the group, or 0xFFFFFFFF.
    pub next: u32,
}
