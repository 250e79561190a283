//! The free blocks of one group of the image: a set of block numbers, kept as words of 64 blocks, that is read from
//! and written to the group's bitmap.
#![tactic(auto)]

mod laws;
mod map;
mod stored;
mod words;

pub use laws::{bitmaps_are_the_sets, numbers_hold_their_bits};
pub use map::{FreeMap, read_map};
