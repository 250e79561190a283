//! The tests of the calls on a group: worked examples, and many random calls, each compared with the plain program over the table, their commits applied to the sectors of an image.
//!
//! A crate with tests is proved twice. So these stand here, above the crates that they test, and call what is public.
#![tactic(auto)]

#[cfg(test)]
mod calls;
#[cfg(test)]
mod disks;
#[cfg(test)]
mod pairs;
#[cfg(test)]
mod random;
#[cfg(test)]
mod worked;
