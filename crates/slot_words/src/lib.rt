//! The words of the inode cache: one number of 64 bits for each inode number, which tells whether the inode is in the
//! cache and how many hold it. Each function gives the word that a step of the cache puts in a word's place, or None
//! where the word does not allow the step.
//!
//! | bits | what |
//! |---|---|
//! | 32 to 63 | generation |
//! | 31 | live: the inode is in the cache |
//! | 30 | unlinked: it has no links |
//! | 28 and 29 | unused, zero |
//! | 0 to 27 | pins: how many hold it |
//!
//! The layout is this project's own.
#![tactic(auto)]

mod sight;
mod steps;
mod word;

pub use sight::{Sight, each_sight_says_one_thing, shows};
pub use steps::{
    close_of, install_of, kill_of, mark_of, open_of, retire_of, steps_leave_words, unmark_of,
};
pub use word::{Word, each_number_is_one_word, read_word};

#[cfg(test)]
mod tests;
