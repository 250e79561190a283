//! The shape of an image: its limits, its superblock, and where inodes stand.
#![tactic(auto)]

mod laws;
mod places;
mod shape;
mod superblock;

pub use laws::superblocks_tell_geometries;
pub use places::{image_sectors, number, sector_of, split, word_at};
pub use shape::{Damaged, Geometry};
pub use superblock::{SUPERBLOCK_CRC_AT, read_super, write_super};
