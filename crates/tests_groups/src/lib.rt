//! The tests of the table and of what stands above the formats: handles, scripts, inodes in core, groups, images that are made, and their rules.
//!
//! A crate with tests is proved twice. So those of crates whose proofs are long stand here, above them, and call what is public.
#![tactic(auto)]

#[cfg(test)]
mod buckets;
#[cfg(test)]
mod caches;
#[cfg(test)]
mod groups;
#[cfg(test)]
mod handles;
#[cfg(test)]
mod making;
#[cfg(test)]
mod rules;
#[cfg(test)]
mod scripts;
#[cfg(test)]
mod tables;
