// Why a change of a group is refused.

ghost use Rattle.std.specs.Prelude.{◌≡◌};

use life_ports::NoMemory;

/// Why a create is refused.
#[derive(Clone, Copy, Debug, PartialEq, Eq)]
pub enum CreateFault {
    /// No number of the group is free, and no chunk can be added.
    NoInodes,
    NoMemory,
}

impl From<NoMemory> for CreateFault {
    ghost use Rattle.group_ops.specs.declared.refusals.CreateFault.TheVariants as fault;

    ghost from_gives = { λ _ e. e ≡ fault.NoMemory };

    fn from(_: NoMemory) -> CreateFault {
        CreateFault::NoMemory
    }
}

/// Why a link is refused.
#[derive(Clone, Copy, Debug, PartialEq, Eq)]
pub enum LinkFault {
    /// The inode has as many links as it can.
    TooManyLinks,
    NoMemory,
}

impl From<NoMemory> for LinkFault {
    ghost use Rattle.group_ops.specs.declared.refusals.LinkFault.TheVariants as fault;

    ghost from_gives = { λ _ e. e ≡ fault.NoMemory };

    fn from(_: NoMemory) -> LinkFault {
        LinkFault::NoMemory
    }
}

/// Why an unlink is refused.
#[derive(Clone, Copy, Debug, PartialEq, Eq)]
pub enum UnlinkFault {
    /// The inode has no link.
    NoLinks,
    NoMemory,
}

impl From<NoMemory> for UnlinkFault {
    ghost use Rattle.group_ops.specs.declared.refusals.UnlinkFault.TheVariants as fault;

    ghost from_gives = { λ _ e. e ≡ fault.NoMemory };

    fn from(_: NoMemory) -> UnlinkFault {
        UnlinkFault::NoMemory
    }
}

/// Why a grow is refused.
#[derive(Clone, Copy, Debug, PartialEq, Eq)]
pub enum GrowFault {
    /// The group has fewer free blocks.
    NoSpace,
    /// The blocks would come to be more runs than a fork holds.
    TooManyExtents,
    NoMemory,
}

impl From<NoMemory> for GrowFault {
    ghost use Rattle.group_ops.specs.declared.refusals.GrowFault.TheVariants as fault;

    ghost from_gives = { λ _ e. e ≡ fault.NoMemory };

    fn from(_: NoMemory) -> GrowFault {
        GrowFault::NoMemory
    }
}

/// Why a cut is refused.
#[derive(Clone, Copy, Debug, PartialEq, Eq)]
pub enum CutFault {
    /// The inode has fewer blocks.
    CutTooFar,
    NoMemory,
}

impl From<NoMemory> for CutFault {
    ghost use Rattle.group_ops.specs.declared.refusals.CutFault.TheVariants as fault;

    ghost from_gives = { λ _ e. e ≡ fault.NoMemory };

    fn from(_: NoMemory) -> CutFault {
        CutFault::NoMemory
    }
}
