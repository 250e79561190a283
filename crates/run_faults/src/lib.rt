//! What the answers of a run tell of the device's faults and of the log. There is no code: it is definitions (`specs/`) and laws.
#![tactic(auto)]

mod laws;

pub use laws::{failed_flushes_leave_logs_down, runs_tell_on, runs_without_faults_are_never_down};
