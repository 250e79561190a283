//! What an AGI tells.

/// The byte of an AGI at which the heads of the unlinked buckets begin, 4 bytes each: XFS names the field `agi_unlinked`.
pub const AGI_UNLINKED_AT: usize = 40;

/// The byte at which the checksum of an AGI stands: XFS names the field `agi_crc`.
pub const AGI_CRC_AT: usize = 312;

/// A group's header.
#[derive(Clone, Copy, Debug, PartialEq, Eq)]
pub struct Agi {
    pub group: u32,
    /// Blocks of the group.
    pub blocks: u32,
    /// Inodes of the group's chunks.
    pub count: u32,
    /// The block of the root page of the inode btree.
    pub root: u32,
    /// Levels of the inode btree.
    pub level: u32,
    /// Free inodes of the group's chunks.
    pub free: u32,
    /// The first inode of each unlinked bucket by its place in the group, or 0xFFFFFFFF.
    pub heads: [u32; 64],
    pub uuid: [u8; 16],
}
