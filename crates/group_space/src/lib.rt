//! What of a group its allocation is, in memory: the leaf of its chunks, and the map of its free blocks. Contracts
//! speak of the chunks of the table that the two are those of.
#![tactic(auto)]

mod blocks;
mod changes;
mod laws;
mod numbers;
mod reading;
mod space;
mod writing;

pub use laws::{lowest_keys_by_number, rows_leave_the_space};
pub use reading::{SpaceFault, read_space};
pub use space::{GroupSpace, SpaceChange, SpaceCounts};
