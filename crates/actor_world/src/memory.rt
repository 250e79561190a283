// What a running mount has in memory, apart from its log: the cache of each group, and where each actor stands.

use life_table::{Call, Key, Listed, Reply};
use slot_words::Word;

/// Whether an inode is in core, and whether it was changed since its buffer was written.
#[derive(Clone, Copy, Debug, PartialEq, Eq)]
pub enum Residence {
    Absent,
    Clean,
    Dirty,
}

/// What the cache has of one number of a group.
#[derive(Clone, Copy, Debug, PartialEq, Eq)]
pub struct Slot {
    /// The word that opens and closes change without a lock.
    pub word: Word,
    /// Its inode in core. Only the holder of the group's lock changes it.
    pub inode: Residence,
}

/// The cache of a group and the group's lock.
#[derive(Debug, Drop)]
pub struct GroupCache {
    /// By the number in the group.
    pub slots: Listed<Slot>,
    /// The actor that holds the lock.
    pub holder: Option<u32>,
}

/// Where a call in progress stands: what its next step does.
#[derive(Debug, Drop)]
pub enum Place {
    /// Open: loads the word.
    Load,
    /// Open: exchanges the word that was seen for one with a pin more.
    Pin { seen: Word },
    /// Open: takes the lock and finds the row.
    Find,
    /// Open, under the lock: loads the word.
    LoadLocked,
    /// Open, under the lock: exchanges the word that was seen for one with a pin more.
    PinLocked { seen: Word },
    /// Open, under the lock: puts a live word with one pin in place.
    Install,
    /// Gives back the group's lock and ends with this reply, whose entry is made.
    Leave { reply: Reply },
    /// Close: takes a pin away.
    Unpin,
    /// Stat: takes the lock and reads the row.
    Read,
    /// Link, unlink and cut: takes the lock.
    Lock,
    /// Link, unlink and cut: makes the change, or is refused.
    Change,
    /// Link and unlink: sets or clears the mark of the word.
    Mark { reply: Reply },
    /// Grow, create and tmpfile: takes the lock, and finds on shortage the rows that await being freed.
    LockShort,
    /// Grow, create and tmpfile: frees this row, and later the others.
    Free { key: Key, others: Listed<Key> },
    /// Grow, create and tmpfile: takes the word of the row that was freed out of the cache.
    Kill { key: Key, others: Listed<Key> },
    /// Grow, create and tmpfile: makes the change, or is refused.
    Answer,
    /// Create and tmpfile: puts the word of the new inode in place.
    InstallMade { key: Key },
    /// Gc: takes the lock of the group of the queue's first key and looks for its row; where the queue is empty, ends.
    Next,
    /// Gc: frees the row of the queue's first key.
    FreeHead,
    /// Gc: takes its word out of the cache.
    KillHead,
    /// Gc: gives back the lock and takes the key off the queue; where that was the last one, ends.
    Pass,
    /// Flush: takes the lock.
    LockFlush,
    /// Flush: copies all dirty inodes that are in core into their buffers.
    Copy,
    /// Reclaim: takes the lock and finds the clean inodes in core.
    LockReclaim,
    /// Reclaim: takes this one out of the cache where nobody holds it and it has links, and later the others.
    Retire { number: u64, others: Listed<u64> },
    /// Flush and reclaim: gives back the lock and ends.
    End,
    /// Sync: takes the log's lock and all queued commits.
    Take,
    /// Sync: goes on making them durable.
    Force,
    /// Home: takes the log's lock.
    TakeLog,
    /// Home: goes on writing logged sectors home.
    WriteHome,
}

/// A call in progress.
#[derive(Debug, Drop)]
pub struct Doing {
    pub call: Call,
    pub place: Place,
    /// How many entries the history had as the call began.
    pub from: u64,
}

/// An actor.
#[derive(Debug, Drop)]
pub struct Actor {
    /// Its call in progress, if it has one.
    pub doing: Option<Doing>,
    /// The keys that wait for its next gc, the oldest first.
    pub queue: Listed<Key>,
}

/// What a running mount has in memory, apart from its log.
#[derive(Debug, Drop)]
pub struct Memory {
    /// By the number of the actor.
    pub actors: Listed<Actor>,
    /// By the number of the group.
    pub groups: Listed<GroupCache>,
}
