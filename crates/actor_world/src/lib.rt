//! The world of actors: calls of several actors that take their atomic steps between each other's steps. Here are the
//! world as data, what one step does, and what is always so. Nothing here runs an image.
#![tactic(auto)]

mod laws;
mod memory;
mod rows;

pub use laws::{
    Tells, calls_begin_in_right_worlds, calls_wait_for_locks_alone, ended_calls_have_one_entry,
    flush_and_reclaim_clean, frees_are_exact, holders_never_wait, locks_are_given_back,
    mounted_worlds_are_right, opens_begin_unlocked, right_worlds_have_one_history,
    settled_keys_stay_stale, steps_append_one_entry, steps_are_of_four_kinds,
    steps_keep_the_invariant, whole_calls_are_lines, whole_calls_end, whole_syncs_are_lines,
};
pub use memory::{Actor, Doing, GroupCache, Memory, Place, Residence, Slot};
pub use rows::rows_run;
