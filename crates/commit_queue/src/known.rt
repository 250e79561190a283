// What an end of the queue knows. No value of these types is made.
use log_record::Commit;
use std::collections::LinkedList;

/// The stream of a group: the commits that its committer pushed, in order.
pub struct Stream {
    pub group: u32,
    pub pushed: LinkedList<Commit>,
}

/// What one end of the queue knows.
pub struct Known {
    /// The streams of which this end knows all.
    pub streams: LinkedList<Stream>,
    /// Whether this end pops, and makes the committers.
    pub takes: bool,
    /// For how many groups the end that pops made a committer.
    pub groups: u32,
    /// What the end that pops has popped.
    pub taken: LinkedList<Commit>,
}
