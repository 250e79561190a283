//! Why a group was not loaded.

ghost use Rattle.std.specs.Prelude.{◌≡◌};

use life_ports::Failed;
use std::alloc::{AllocError, AllocFailed};

/// The rules on a group's header and on its inode btree, by their numbers.
pub(crate) const HEADER_RULE: u32 = 5;

pub(crate) const TREE_RULE: u32 = 6;

/// Why a group was not loaded.
#[derive(Clone, Copy, Debug, PartialEq, Eq)]
pub enum LoadFault {
    /// What the view gave breaks this rule of a sound image, at this sector: somebody else wrote the image.
    Damaged { rule: u32, sector: u64 },
    /// A read failed.
    ReadFault,
    NoMemory,
}

impl From<Failed> for LoadFault {
    ghost use Rattle.group_ops.specs.declared.fault.LoadFault.TheVariants.{ReadFault};

    ghost from_gives = { λ _ e. e ≡ ReadFault };

    fn from(_: Failed) -> LoadFault {
        LoadFault::ReadFault
    }
}

impl From<AllocError> for LoadFault {
    ghost use Rattle.group_ops.specs.declared.fault.LoadFault.TheVariants.{NoMemory};

    ghost from_gives = { λ _ e. e ≡ NoMemory };

    fn from(_: AllocError) -> LoadFault {
        LoadFault::NoMemory
    }
}

impl<T: Drop> From<AllocFailed<T>> for LoadFault {
    ghost use Rattle.group_ops.specs.declared.fault.LoadFault.TheVariants.{NoMemory};

    ghost from_gives = { λ _ e. e ≡ NoMemory };

    fn from(_: AllocFailed<T>) -> LoadFault {
        LoadFault::NoMemory
    }
}
