// Where the pointers of the buckets are kept.

ghost use Rattle.std.specs.Prelude.{◌≡◌, ◌≤◌, ◌+◌, ◌<◌, ℕ, Contains, slice_index};
ghost use Rattle.agi_buckets.specs.Buckets.{Pointers, IsPointer, SetsHead, SetsNext};
ghost use Rattle.life_limits.specs.declared.TheConstants.{BUCKETS};

/// The heads of a group's 64 unlinked buckets, and the next pointers of its inodes. A pointer is an inode's number in the group, or `NO_INODE` where a
/// list ends.
pub trait Nexts {
    /// The heads, the next pointers, and the inodes that have one.
    ghost pointers: { Self → Pointers };

    /// How many next pointers can be set for sure.
    ghost room: { Self → ℕ };

    /// The head of a bucket.
    fn head(&self, bucket: u32) -> u32
        requires { bucket < BUCKETS }
        ensures { result ≡ slice_index (pointers self.now).heads bucket };

    /// Sets the head of a bucket.
    fn set_head(&mut self, bucket: u32, agino: u32)
        requires bucket { bucket < BUCKETS }
        requires agino { IsPointer (pointers self.old) agino }
        ensures set { SetsHead (pointers self.old) (pointers self.new) bucket agino }
        ensures room { room self.old ≤ room self.new };

    /// The next pointer of an inode.
    fn next(&self, agino: u32) -> u32
        requires { Contains (pointers self.now).places agino }
        ensures { result ≡ (pointers self.now).next agino };

    /// Sets the next pointer of an inode, which may use up room for one.
    fn set_next(&mut self, agino: u32, next: u32)
        requires agino { Contains (pointers self.old).places agino }
        requires next { IsPointer (pointers self.old) next }
        requires room { 1 ≤ room self.old }
        ensures set { SetsNext (pointers self.old) (pointers self.new) agino next }
        ensures room { room self.old ≤ room self.new + 1 };
}
