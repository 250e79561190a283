//! Whether the groups of an image are sound, decided rule by rule.
#![tactic(auto)]

mod all_groups;
mod bitmaps;
mod fault;
mod found;
mod groups;
mod headers;
mod inodes;
mod links;
mod lists;
mod one_group;
mod pages;
mod reading;
mod tables;
mod taken;

pub use all_groups::check_groups;
pub use fault::CheckFault;
pub use headers::right_header;
pub use inodes::{right_blocks, right_core};
pub use one_group::check_group;
pub use pages::{has_counts, right_leaf};
pub use tables::Tables;
