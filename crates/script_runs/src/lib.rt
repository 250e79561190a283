//! Runs of scripts over a disk that can be stopped before or within any write: mount lines, unmount lines, stops, stops that are armed, and lines with whole calls of an actor. Of a disk that tells what it
//! holds, and of a sound first image, a run keeps the headline of `run_history`: its answers are those of one legal history of each mount, the mounts follow each other, and whatever a
//! crash leaves is the table after a prefix of the last one's changes that has each acknowledged one.
#![tactic(auto)]

mod calling;
mod coming;
mod lines;
mod restarts;
mod run;
mod running;
mod saying;
mod stopping;
mod unmounting;

pub use calling::call_line;
pub use coming::mount_line;
pub use lines::answer_line;
pub use restarts::Restarts;
pub use run::{Ended, run_script};
pub use running::{Comes, Device, Run, Up};
pub use stopping::{arm_line, stop_line};
pub use unmounting::unmount_line;
