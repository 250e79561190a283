// Where a log begins anew, and why it does not.
ghost use Rattle.std.specs.Prelude.{◌≤◌, ◌<◌, MatchOption};
ghost use Rattle.life_limits.specs.declared.TheConstants.{MOUNT_LIMIT};
ghost use Rattle.recovery.specs.Replay.{AreUsedUp, IsBehind};

use crate::found::Found;
use life_limits::MOUNT_LIMIT;

/// Where a log begins that has no record.
#[derive(Clone, Copy, Debug, PartialEq, Eq)]
pub struct Start {
    /// The position of the first record.
    pub position: u64,
    /// The number of the next commit.
    pub next_commit: u64,
}

/// Why a log was not replayed, or not to the end.
#[derive(Clone, Copy, Debug, PartialEq, Eq)]
pub enum ReplayFault {
    /// A write of the disk failed.
    WriteFault,
    /// A flush of the disk failed.
    FlushFault,
    /// The position at which the log would begin, or the next commit number, is 2^62 or more. Nothing was written.
    PositionEnd,
}

/// Where the log begins anew behind what was found: one turn of the ring behind its end, so that no position is used twice.
pub(crate) fn start_behind(found: &Found, ring: u32) -> Option<Start>
    ensures { MatchOption result (AreUsedUp ring found.now)
        (λ start. IsBehind ring found.now start × (start.position < MOUNT_LIMIT) × (start.next_commit < MOUNT_LIMIT)) }
{
    let position = found.end.checked_add(u64::from(ring))?;
    if position >= MOUNT_LIMIT || found.next_commit >= MOUNT_LIMIT {
        return None;
    }
    Some(Start {
        position,
        next_commit: found.next_commit,
    })
}
