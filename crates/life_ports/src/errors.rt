// What the calls of the outside answer when they do not succeed.
ghost use Rattle.std.specs.Prelude.{◌≡◌};
ghost use Rattle.life_ports.specs.Errors.{failed, no_memory};
ghost use Rattle.life_ports.specs.declared.errors.Refused.TheVariants.{Failed, NoMemory};

use std::alloc::{AllocError, AllocFailed};

/// A call of an object of the outside failed. The object's count of faults says so too.
#[derive(Clone, Copy, Debug, PartialEq, Eq)]
pub struct Failed;

/// There was no memory for the call. What the call was to change is as before.
#[derive(Clone, Copy, Debug, PartialEq, Eq)]
pub struct NoMemory;

impl From<AllocError> for NoMemory {
    ghost from_gives = { λ _ e. e ≡ no_memory };

    fn from(_: AllocError) -> Self {
        NoMemory
    }
}

impl<T: Drop> From<AllocFailed<T>> for NoMemory {
    ghost from_gives = { λ _ e. e ≡ no_memory };

    fn from(_: AllocFailed<T>) -> Self {
        NoMemory
    }
}

/// Why a call that takes memory and reaches the outside was refused.
#[derive(Clone, Copy, Debug, PartialEq, Eq)]
pub enum Refused {
    Failed,
    NoMemory,
}

impl From<Failed> for Refused {
    ghost from_gives = { λ _ e. e ≡ Failed };

    fn from(_: Failed) -> Self {
        Refused::Failed
    }
}

impl From<NoMemory> for Refused {
    ghost from_gives = { λ _ e. e ≡ NoMemory };

    fn from(_: NoMemory) -> Self {
        Refused::NoMemory
    }
}

impl From<AllocError> for Refused {
    ghost from_gives = { λ _ e. e ≡ NoMemory };

    fn from(_: AllocError) -> Self {
        Refused::NoMemory
    }
}

impl<T: Drop> From<AllocFailed<T>> for Refused {
    ghost from_gives = { λ _ e. e ≡ NoMemory };

    fn from(_: AllocFailed<T>) -> Self {
        Refused::NoMemory
    }
}
