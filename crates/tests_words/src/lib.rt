//! The tests of the words of the inode cache, by one thread and by several, and of the versions.
//!
//! A crate with tests is proved twice. So those of crates whose proofs are long stand here, above them, and call what is public.
#![tactic(auto)]

#[cfg(test)]
mod caches;
#[cfg(test)]
mod holds;
#[cfg(test)]
mod threads;
#[cfg(test)]
mod versions;
