//! Lists of commits that carry a table of inodes on, and what the sectors of the groups encode before and after them. There is no code: it is definitions (`specs/`) and laws.
#![tactic(auto)]

mod laws;

pub use laws::{
    commits_fit_the_log, commits_follow_each_other, commits_lead_from_encoding_to_encoding,
    groups_are_carried_apart, prefixes_represent_their_table,
};
