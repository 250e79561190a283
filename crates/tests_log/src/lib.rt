//! The tests of disks and of the log: what a disk keeps at a stop, the anchor, records in a ring, batches of commits, and recovery.
//!
//! A crate with tests is proved twice. So those of crates whose proofs are long stand here, above them, and call what is public.
#![tactic(auto)]

#[cfg(test)]
mod anchors;
#[cfg(test)]
mod batches;
#[cfg(test)]
mod disks;
#[cfg(test)]
mod recoveries;
#[cfg(test)]
mod rings;
#[cfg(test)]
mod store_faults;
#[cfg(test)]
mod store_stops;
#[cfg(test)]
mod stores;
