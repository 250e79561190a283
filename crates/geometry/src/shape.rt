//! What a superblock tells.

/// The least rule of a sound image that is broken, and the least sector that breaks it.
#[derive(Clone, Copy, Debug, PartialEq, Eq)]
pub struct Damaged {
    pub rule: u32,
    pub sector: u64,
}

/// How an image is laid out.
#[derive(Clone, Copy, Debug, PartialEq, Eq)]
pub struct Geometry {
    pub version: u32,
    /// How many groups there are.
    pub groups: u32,
    /// Blocks of each group.
    pub blocks: u32,
    /// Sectors of the ring behind the groups and the anchor.
    pub ring: u32,
    pub uuid: [u8; 16],
}
