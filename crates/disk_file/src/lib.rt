//! Disks that are files. This is the one edge of the program where contents are not known: nothing is proved of what a file keeps.
#![tactic(auto)]

mod file_disk;
mod file_images;
mod reads_runs;
#[cfg(test)]
mod tests;
mod window_disk;

pub use file_disk::FileDisk;
pub use file_images::FileImages;
pub use reads_runs::ReadsRuns;
pub use window_disk::WindowDisk;
