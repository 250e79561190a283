//! The tests of whole images: for each rule of a sound image, images that break it alone; what the log over an image changes; missing sectors; reads that
//! fail.
//!
//! A crate with tests is proved twice. So these stand here, above the crates that they test, and call what is public.
#![tactic(auto)]

#[cfg(test)]
mod damages;
#[cfg(test)]
mod images;
#[cfg(test)]
mod logs;
