//! The extent fork: the runs of blocks that an inode has, in its sector behind the core.
//!
//! A record has 16 bytes, one big-endian number. From the top bit: a flag, which is 0 here; 54 bits of
//! offset in the file, in blocks; 52 bits of start block; 21 bits of count. The start block is the group
//! times 2^14 plus the block of the group. Offsets begin at 0 and leave no hole. Behind the last record
//! the fork is zero.
#![tactic(auto)]

mod extent;
mod fault;
mod laws;
mod reading;
mod runs;
mod writing;

pub use extent::Extent;
pub use fault::{ForkFault, RunsFault};
pub use laws::{encoded_forks_are_read, longest_runs_are_one};
pub use reading::read_fork;
pub use runs::{fill_runs, runs_of};
pub use writing::write_fork;
