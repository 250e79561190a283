//! Which actors hold which inodes of a mount, by its entries, where no call opens or closes.
#![tactic(auto)]

mod holds;
mod laws;

pub use holds::ActorHolds;
pub use laws::holds_are_of_rows;
