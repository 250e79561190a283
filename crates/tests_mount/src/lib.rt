//! The tests of mounts: whatever a crash leaves, the next mount frees each inode without links once, and its blocks.
//!
//! A crate with tests is proved twice. So these stand here, above the crates that they test, and call what is public.
#![tactic(auto)]

#[cfg(test)]
mod crashes;
#[cfg(test)]
mod disks;
#[cfg(test)]
mod orphans;
#[cfg(test)]
mod rows;
