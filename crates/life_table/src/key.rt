// The name of one life of an inode.

/// An inode by its number and its generation. Freeing an inode raises its generation, so a key names one life of the
/// inode and no other.
#[derive(Clone, Copy, Debug, PartialEq, Eq)]
pub struct Key {
    /// The number of the inode in the image: 131,072 times its group, and its number in the group.
    pub number: u64,
    /// Which life of the inode this is, from 1 on.
    pub generation: u32,
}

/// A key as callers keep it: its text is `number.generation`.
pub type Handle = Key;
