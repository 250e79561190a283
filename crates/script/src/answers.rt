// What a run answers.

use life_table::{Entries, Reply};

/// What a line was answered that is not the reply of a call.
#[derive(Clone, Copy, Debug, PartialEq, Eq)]
pub enum LineReply {
    /// The mount is up: so many changes of the mount before are kept, and so many inodes were freed.
    Mounted { kept: u64, freed: u64 },
    /// The image breaks a rule, which this sector shows.
    Damaged { rule: u32, sector: u64 },
    ReadFault,
    WriteFault,
    FlushFault,
    /// The positions of the log are used up.
    PositionEnd,
    AlreadyMounted,
    NotMounted,
    Unmounted,
    /// So many holds are left.
    Busy { opens: u64 },
    /// The log is down since a fault, after which the device had counted so many.
    Down { fault: u64 },
    /// This actor has a call that has not ended.
    Mid { actor: u32 },
    /// The actor has no call.
    Idle,
    /// The image has no such group.
    NoGroup,
    /// The name has no handle, or the actor no hold on it.
    Unbound,
    Begun,
    /// A step was made, and the call has not ended.
    Went,
    /// The step needs a lock that this actor holds.
    Waits { actor: u32 },
    Named,
    Armed,
    Stopped,
}

/// What a line was answered.
#[derive(Debug, Drop)]
pub enum Said {
    /// The reply of an entry of a mount, both counted from 0.
    Of {
        mount: u64,
        entry: u64,
    },
    /// The reply of an entry of a group's story, counted from 0, to this actor's worker.
    InGroup {
        actor: u32,
        group: u32,
        entry: u64,
    },
    /// A reply that no entry has, to this actor's worker.
    Direct {
        actor: u32,
        reply: Reply,
    },
    /// A reply that is no call's; with an actor where each actor has a worker of its own.
    Line {
        actor: Option<u32>,
        reply: LineReply,
    },
}

/// What happened under the lock of one group, or of the store, whose number is the number of groups.
#[derive(Debug, Drop)]
pub struct GroupStory {
    pub group: u32,
    /// In order.
    pub entries: Entries,
}
