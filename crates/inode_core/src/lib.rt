//! The inode core: the front of an inode's sector, shaped after version 3 of XFS's.
//!
//! All numbers are big endian but the checksum. Bytes below 176 that are not listed are zero; the fork
//! begins at 176.
//!
//! | at | width | field | value |
//! |---|---|---|---|
//! | 0 | 2 | magic | `IN` |
//! | 2 | 2 | mode | 0x81A4 of a live inode, a file; 0 of a free one |
//! | 4 | 1 | version | 3 |
//! | 5 | 1 | format | 2, extents |
//! | 16 | 4 | nlink | links |
//! | 56 | 8 | size | bytes |
//! | 64 | 8 | nblocks | blocks |
//! | 76 | 4 | nextents | runs of blocks |
//! | 92 | 4 | gen | generation |
//! | 96 | 4 | next_unlinked | the next of its bucket, or 0xFFFFFFFF |
//! | 100 | 4 | crc | CRC32c of the sector |
//! | 152 | 8 | ino | own number |
//! | 160 | 16 | uuid | the superblock's |
#![tactic(auto)]

mod laws;
mod reading;
mod shape;
mod writing;

pub use laws::encoded_cores_are_read;
pub use reading::read_core;
pub use shape::{CORE_CRC_AT, Core, FORK_AT};
pub use writing::write_core;
