//! What a run knows of its mounts: how the record of a mount, and what its disk may leave, go on with the mounts before. There is no code: it is definitions (`specs/`) and laws.
#![tactic(auto)]

mod laws;

pub use laws::{
    mounts_begin_where_runs_stand, mounts_leave_prefixes, mounts_that_came_up_run,
    refused_mounts_leave_prefixes, unbegun_mounts_leave_runs,
};
