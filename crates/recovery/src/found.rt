// What was found of a log.

use crate::homes::HomeImages;

/// What the log of an image says.
#[derive(Drop)]
pub struct Found {
    /// The position of the first record that counts, or `end` where there is none.
    pub tail: u64,
    /// The position at which the log goes on.
    pub end: u64,
    /// The number of the next commit.
    pub next_commit: u64,
    /// The newest image of each sector that the log's records write, by ascending home.
    pub images: HomeImages,
}
