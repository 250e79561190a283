//! Whole calls on a mount that is up, each an entry of one history: what changes inodes of a group, and what makes changes durable.
#![tactic(auto)]

mod calls;
mod deciding;
mod decision;
mod device;
mod grouping;
mod laws;
mod recording;
mod settling;

pub use calls::call_in_group;
pub use device::{home, sync};
pub use laws::{
    ended_logs_leave_all_changes, fresh_mounts_run, logs_leave_first_changes, logs_move_on,
};
