//! A leaf of a group's inode btree: its records of chunks, in memory and as a page.
#![tactic(auto)]

mod chunk;
mod laws;
mod leaf;
mod masks;
mod reading;
mod records;
mod sectors;
mod siblings;
mod writing;

pub use chunk::ChunkRec;
pub use laws::{encoded_pages_are_read, pages_tell_leaves};
pub use leaf::{Leaf, LeafFault};
pub use masks::masks_change_by_one_bit;
pub use reading::{PageFault, read_leaf, read_page};
pub use siblings::Siblings;
pub use writing::{LEAF_CRC_AT, LEAF_RECORDS_AT, write_empty_page, write_leaf, write_page};
