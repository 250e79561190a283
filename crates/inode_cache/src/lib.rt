//! The inodes of one group that are in core: each is an inode's core with its blocks, and whether it was changed since its
//! sector was written. Changes are made here first; a flush copies what was changed into the buffers of its cluster of 32
//! inodes.
#![tactic(auto)]

mod cache;
mod inode;
mod number_set;

pub use cache::{InodeCache, begin_cache};
pub use inode::{CLUSTER_INODES, Incore, Kept, write_inode};
pub use number_set::NumberSet;
