//! Why a mount did not come up, and why one did not end.

ghost use Rattle.std.specs.Prelude.{◌≡◌};
ghost use Rattle.mount.specs.Faults.{of_inspection, of_load, of_replay, of_store};

use group_ops::LoadFault;
use inspect::InspectFault;
use log_store::StoreFault;
use recovery::ReplayFault;

/// Why a mount did not come up.
#[derive(Clone, Copy, Debug, PartialEq, Eq)]
pub enum MountFault {
    /// The least rule of sound images that is broken, by its number, and the least sector that is named for it.
    Damaged { rule: u32, sector: u64 },
    /// A read of the disk failed.
    ReadFault,
    /// A write of the disk failed.
    WriteFault,
    /// A flush of the disk failed.
    FlushFault,
    /// The position at which the log would begin, or the next commit number, is 2^62 or more, or the log's positions end.
    PositionEnd,
    NoMemory,
}

/// Why a mount did not end.
#[derive(Clone, Copy, Debug, PartialEq, Eq)]
pub enum EndFault {
    /// So many holds on inodes are left.
    Busy { opens: u64 },
    /// A write of the disk failed.
    WriteFault,
    /// A flush of the disk failed.
    FlushFault,
    /// The positions of the log are used up.
    PositionEnd,
    /// An earlier write of the log or an earlier flush failed, and the disk's count of faults was this after it.
    Down { fault: u64 },
    NoMemory,
}

impl From<InspectFault> for MountFault {
    ghost from_gives = { λ fault e. e ≡ of_inspection fault };

    fn from(fault: InspectFault) -> MountFault {
        match fault {
            InspectFault::Damaged { rule, sector } => MountFault::Damaged { rule, sector },
            InspectFault::ReadFault => MountFault::ReadFault,
            InspectFault::NoMemory => MountFault::NoMemory,
        }
    }
}

impl From<ReplayFault> for MountFault {
    ghost from_gives = { λ fault e. e ≡ of_replay fault };

    fn from(fault: ReplayFault) -> MountFault {
        match fault {
            ReplayFault::WriteFault => MountFault::WriteFault,
            ReplayFault::FlushFault => MountFault::FlushFault,
            ReplayFault::PositionEnd => MountFault::PositionEnd,
        }
    }
}

impl From<LoadFault> for MountFault {
    ghost from_gives = { λ fault e. e ≡ of_load fault };

    fn from(fault: LoadFault) -> MountFault {
        match fault {
            LoadFault::Damaged { rule, sector } => MountFault::Damaged { rule, sector },
            LoadFault::ReadFault => MountFault::ReadFault,
            LoadFault::NoMemory => MountFault::NoMemory,
        }
    }
}

impl From<StoreFault> for EndFault {
    ghost from_gives = { λ fault e. e ≡ of_store fault };

    fn from(fault: StoreFault) -> EndFault {
        match fault {
            StoreFault::WriteFault => EndFault::WriteFault,
            StoreFault::FlushFault => EndFault::FlushFault,
            StoreFault::PositionEnd => EndFault::PositionEnd,
            StoreFault::Down { fault } => EndFault::Down { fault },
        }
    }
}
