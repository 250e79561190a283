//! A run of blocks.

/// Blocks of a group that follow each other.
#[derive(Clone, Copy, Debug, PartialEq, Eq)]
pub struct Extent {
    /// The first of them, counted in its group.
    pub start: u32,
    /// How many there are.
    pub count: u32,
}
