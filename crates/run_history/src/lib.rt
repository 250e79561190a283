//! What a run of a script promises: its mounts and how they follow each other, the answer of each line, and the parts of the headline. There is no code: it is
//! definitions (`specs/`) and laws.
#![tactic(auto)]

mod laws;
mod rows;

pub use laws::{
    answered_calls_stand_between, answers_tell_of_the_mount, damage_is_told_exactly,
    one_answer_a_line, runs_go_on, runs_join, runs_without_lines_are_crash_safe,
    tables_of_mounts_are_well_formed,
};
pub use rows::{steps_of_two_actors_are_told, worked_runs_are_told_apart};
