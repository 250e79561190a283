//! One group of a table apart from the others: what is asked of it and changed in it has nothing to do with them. There is no code: it is definitions
//! (`specs/`) and laws.
#![tactic(auto)]

mod laws;

pub use laws::{
    calls_stay_in_their_group, encodings_pass_over_holds, frees_stay_in_their_group,
    groups_stand_apart,
};
