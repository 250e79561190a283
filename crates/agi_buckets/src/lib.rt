//! The unlinked buckets of a group: inodes without links, in 64 singly linked lists through their next pointers, as the AGI and the inodes of XFS keep
//! them. Where the pointers stand is the business of what implements `Nexts`.
#![tactic(auto)]

mod buckets;
mod laws;
mod nexts;

pub use buckets::{list, put, remove};
pub use laws::pointers_give_one_list;
pub use nexts::Nexts;
