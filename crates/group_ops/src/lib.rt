//! A group of an image as its lock guards it: the sectors of its inodes as buffers, the inodes in core over them, and the chunks, free blocks and unlinked
//! buckets of the group.
#![tactic(auto)]

mod blocks;
mod buffers;
mod change;
mod create;
mod delta;
mod fault;
mod flush;
mod free;
mod group_table;
mod in_core;
mod laws;
mod links;
mod load;
mod next_pointer;
mod orphans;
mod pointers;
mod pointing;
mod reading;
mod refusals;
mod rows;
mod sectors;
mod staging;
mod state;

pub use buffers::ChunkBuffers;
pub use change::Change;
pub use delta::{Delta, Head, Prior, Relink};
pub use fault::LoadFault;
pub use group_table::{changes_are_events, states_have_their_inodes, states_have_their_table};
pub use laws::groups_pass_over_holds;
pub use load::load_group;
pub use refusals::{CreateFault, CutFault, GrowFault, LinkFault, UnlinkFault};
pub use rows::RowLine;
pub use state::GroupState;
