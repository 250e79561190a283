// Tables as data.

use crate::list::Listed;
use crate::types::Row;

/// An inode that a chunk has: in use or not.
#[derive(Debug, Drop)]
pub struct Inode {
    /// The generation of the life that it is in, or will be in next.
    pub generation: u32,
    /// Its row, where it is in use.
    pub row: Option<Row>,
}

/// Inodes that were allocated together.
#[derive(Debug, Drop)]
pub struct Chunk {
    /// The number of the first one in its group: 8 times its block.
    pub start: u32,
    /// The inodes in their order, 64 of them.
    pub inodes: Listed<Inode>,
}

/// The chunks of a group, by ascending start.
pub type Group = Listed<Chunk>;

/// The inodes of an image by number and generation.
#[derive(Debug, Drop)]
pub struct Table {
    /// The version of the image.
    pub version: u32,
    /// The number of blocks of each group.
    pub blocks: u32,
    pub groups: Listed<Group>,
}
