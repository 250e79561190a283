//! The tests of the formats: what stands in the sectors of an image, field by field, and what is read of it.
//!
//! A crate with tests is proved twice. So those of crates whose proofs are long stand here, above them, and call what is public.
#![tactic(auto)]

#[cfg(test)]
mod bitmaps;
#[cfg(test)]
mod compare;
#[cfg(test)]
mod cores;
#[cfg(test)]
mod field_edges;
#[cfg(test)]
mod fields;
#[cfg(test)]
mod forks;
#[cfg(test)]
mod headers;
#[cfg(test)]
mod leaves;
#[cfg(test)]
mod limits;
#[cfg(test)]
mod records;
#[cfg(test)]
mod superblocks;
