//! The AGI header: sector 2 of a group, shaped after that of XFS version 5.
//!
//! All numbers are big endian but the checksum. Bytes that are not listed are zero.
//!
//! | at | width | field | value |
//! |---|---|---|---|
//! | 0 | 4 | magic | `XAGI` |
//! | 4 | 4 | version | 1 |
//! | 8 | 4 | seqno | the group |
//! | 12 | 4 | length | blocks of the group |
//! | 16 | 4 | count | inodes of its chunks |
//! | 20 | 4 | root | block of the root page, 2 to 17 |
//! | 24 | 4 | level | 1 |
//! | 28 | 4 | freecount | free inodes of its chunks |
//! | 32 | 4 | newino | 0xFFFFFFFF |
//! | 36 | 4 | dirino | 0xFFFFFFFF |
//! | 40 | 256 | unlinked | 64 heads, 4 bytes each |
//! | 296 | 16 | uuid | the superblock's |
//! | 312 | 4 | crc | CRC32c of the sector |
#![tactic(auto)]

mod agi;
mod heads;
mod laws;
mod reading;
mod setting;
mod writing;

pub use agi::{AGI_CRC_AT, AGI_UNLINKED_AT, Agi};
pub use laws::encoded_headers_are_read;
pub use reading::read_agi;
pub use setting::{set_counts, set_head, set_root};
pub use writing::write_agi;
