// A record of a chunk.

/// A chunk of 64 inodes.
#[derive(Clone, Copy, Debug, PartialEq, Eq)]
pub struct ChunkRec {
    /// The first of its inodes, by its place in the group.
    pub start: u32,
    /// How many of them are free.
    pub free: u32,
    /// Bit `i`, of value `2^i`, is set where inode `start + i` is free.
    pub mask: u64,
}
