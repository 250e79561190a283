//! Images for tests, built byte by byte from the tables of the format: the crates that encode the format have no part in them but for checksums.
#![tactic(auto)]

mod image;

pub use image::{ANCHOR, File, GEOMETRY, GROUP, Group, NO_INODE, SECTORS, image_of, put, put_page};
