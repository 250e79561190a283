//! A sector's bytes, numbers that stand in them big endian, and checksums.
#![tactic(auto)]

mod crc;
mod crc_table;
mod fields;
mod pieces;
mod sector;

pub use crc::{crc_holed, crc32c, put_crc};
pub use fields::{
    field_u16, field_u32, field_u64, field_u128, numbers_determine_bytes, put_u16, put_u32,
    put_u64, put_u128,
};
pub use pieces::{put_bytes, put_u8};
pub use sector::Sector;
