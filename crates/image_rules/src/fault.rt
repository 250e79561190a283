//! Why groups are not sound, or were not checked.

ghost use Rattle.std.specs.Prelude.{◌≡◌};

use life_ports::Failed;
use std::alloc::{AllocError, AllocFailed};

/// The rules that groups are checked by, under their numbers. Rules 1 to 4 are those of the superblock, the image's size, the anchor and the log.
pub(crate) enum GroupRule {
    /// The header of a group.
    Header = 5,
    /// The inode btree, and what the header counts of it.
    Tree = 6,
    /// The core of each inode.
    Core = 7,
    /// The fork of each inode in use.
    Fork = 8,
    /// That no block is in two places.
    Blocks = 9,
    /// The bitmap of free blocks.
    Bitmap = 10,
    /// The pointers of the unlinked lists.
    Pointers = 11,
    /// Which inodes are on the unlinked lists.
    Lists = 12,
}

/// Why there is no answer that all is sound.
#[derive(Clone, Copy, Debug, PartialEq, Eq)]
pub enum CheckFault {
    /// The least rule that is broken, by its number, and the least sector that is named for it.
    Damaged { rule: u32, sector: u64 },
    /// A read failed.
    ReadFault,
    NoMemory,
}

/// A rule that is broken, by its number, and a sector that is named for it.
#[derive(Clone, Copy)]
pub(crate) struct Damage {
    pub(crate) rule: u32,
    pub(crate) sector: u64,
}

impl From<Failed> for CheckFault {
    ghost use Rattle.image_rules.specs.declared.fault.CheckFault.TheVariants.{ReadFault};

    ghost from_gives = { λ _ e. e ≡ ReadFault };

    fn from(_: Failed) -> CheckFault {
        CheckFault::ReadFault
    }
}

impl From<AllocError> for CheckFault {
    ghost use Rattle.image_rules.specs.declared.fault.CheckFault.TheVariants.{NoMemory};

    ghost from_gives = { λ _ e. e ≡ NoMemory };

    fn from(_: AllocError) -> CheckFault {
        CheckFault::NoMemory
    }
}

impl<T: Drop> From<AllocFailed<T>> for CheckFault {
    ghost use Rattle.image_rules.specs.declared.fault.CheckFault.TheVariants.{NoMemory};

    ghost from_gives = { λ _ e. e ≡ NoMemory };

    fn from(_: AllocFailed<T>) -> CheckFault {
        CheckFault::NoMemory
    }
}
