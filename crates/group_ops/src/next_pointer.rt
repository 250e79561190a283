// A next pointer that is set.

/// A next pointer that a change sets: that of an inode, by its number in the group.
#[derive(Clone, Copy)]
pub(crate) struct NextPointer {
    pub agino: u32,
    pub next: u32,
}
