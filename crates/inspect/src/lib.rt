//! The check of a whole image: its superblock, its number of sectors, its anchor and its log, and the groups that the log
//! leaves, by all rules of a sound image.
#![tactic(auto)]

mod fault;
mod first_sectors;
mod front;
mod replayed;
mod whole;

pub use fault::InspectFault;
pub use whole::{Inspection, inspect, inspect_with_log};
