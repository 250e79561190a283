//! The mounts of a run over one disk: a mount that comes up behind those before it, a whole call on it, and its end. Each keeps that the run's mounts have one legal history
//! apiece, follow each other, and can be told from whatever a crash leaves of the disk.
#![tactic(auto)]

mod calling;
mod coming;
mod ending;
mod laws;

pub use calling::call_on;
pub use coming::mount_behind;
pub use ending::{EndedMount, end_mount};
pub use laws::mounts_cut_off_stand_safe;
