//! The tests of the program: whole runs over disks in memory, what is found behind a stop or a fault, and the texts that are written.
//!
//! A crate with tests is proved twice. So these stand here, above the crates that they test, and call what is public.
#![tactic(auto)]

#[cfg(test)]
mod checks;
#[cfg(test)]
mod images;
#[cfg(test)]
mod input;
#[cfg(test)]
mod output;
#[cfg(test)]
mod rows;
#[cfg(test)]
mod runs;
#[cfg(test)]
mod sweeps;
