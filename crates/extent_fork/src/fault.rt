//! Why there is no list of runs.

ghost use Rattle.std.specs.Prelude.{◌≡◌};

use std::alloc::{AllocError, AllocFailed};

/// Why a fork was not read.
#[derive(Clone, Copy, Debug, PartialEq, Eq)]
pub enum ForkFault {
    /// The fork encodes no such list.
    Malformed,
    NoMemory,
}

impl From<AllocError> for ForkFault {
    ghost use Rattle.extent_fork.specs.declared.fault.ForkFault.TheVariants.{NoMemory};

    ghost from_gives = { λ _ e. e ≡ NoMemory };

    fn from(_e: AllocError) -> ForkFault {
        ForkFault::NoMemory
    }
}

impl<T: Drop> From<AllocFailed<T>> for ForkFault {
    ghost use Rattle.extent_fork.specs.declared.fault.ForkFault.TheVariants.{NoMemory};

    ghost from_gives = { λ _ e. e ≡ NoMemory };

    fn from(_e: AllocFailed<T>) -> ForkFault {
        ForkFault::NoMemory
    }
}

/// Why blocks were not made into runs.
#[derive(Clone, Copy, Debug, PartialEq, Eq)]
pub enum RunsFault {
    /// The blocks make more runs than a fork has room for.
    TooManyExtents,
    NoMemory,
}

impl From<AllocError> for RunsFault {
    ghost use Rattle.extent_fork.specs.declared.fault.RunsFault.TheVariants.{NoMemory};

    ghost from_gives = { λ _ e. e ≡ NoMemory };

    fn from(_e: AllocError) -> RunsFault {
        RunsFault::NoMemory
    }
}

impl<T: Drop> From<AllocFailed<T>> for RunsFault {
    ghost use Rattle.extent_fork.specs.declared.fault.RunsFault.TheVariants.{NoMemory};

    ghost from_gives = { λ _ e. e ≡ NoMemory };

    fn from(_e: AllocFailed<T>) -> RunsFault {
        RunsFault::NoMemory
    }
}
