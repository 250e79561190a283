//! The rows without links that a mount frees: which they are, in which order, what their frees lead to; and the frees.
#![tactic(auto)]

mod frees;
mod laws;

pub use frees::free_orphans;
pub use laws::{groups_are_freed_in_order, recovery_frees_in_order, recovery_goes_by_bucket};
