// Why nothing was found of a log.
ghost use Rattle.std.specs.Prelude.{◌≡◌};
ghost use Rattle.recovery.specs.Broken.{lowered};
ghost use Rattle.recovery.specs.declared.fault.ScanFault.TheVariants.{NoMemory, ReadFault};

use std::alloc::{AllocError, AllocFailed};

/// Why nothing was found of the log of an image.
#[derive(Clone, Copy, Debug, PartialEq, Eq)]
pub enum ScanFault {
    /// A rule of sound images is broken, that of the anchor (3) or that of the log (4), and this is the least sector that
    /// is named for it.
    Damaged { rule: u32, sector: u64 },
    /// A read of the disk failed.
    ReadFault,
    NoMemory,
}

impl ScanFault {
    /// The same fault, where damage names no sector above this one.
    pub(crate) fn at_most(self, high: u64) -> ScanFault
        ensures { result ≡ lowered high self }
    {
        match self {
            ScanFault::Damaged { rule, sector } => ScanFault::Damaged {
                rule,
                sector: sector.min(high),
            },
            fault => fault,
        }
    }
}

impl From<life_ports::NoMemory> for ScanFault {
    ghost from_gives = { λ _ e. e ≡ NoMemory };

    fn from(_: life_ports::NoMemory) -> Self {
        ScanFault::NoMemory
    }
}

impl From<life_ports::Failed> for ScanFault {
    ghost from_gives = { λ _ e. e ≡ ReadFault };

    fn from(_: life_ports::Failed) -> Self {
        ScanFault::ReadFault
    }
}

impl From<AllocError> for ScanFault {
    ghost from_gives = { λ _ e. e ≡ NoMemory };

    fn from(_: AllocError) -> Self {
        ScanFault::NoMemory
    }
}

impl<T: Drop> From<AllocFailed<T>> for ScanFault {
    ghost from_gives = { λ _ e. e ≡ NoMemory };

    fn from(_: AllocFailed<T>) -> Self {
        ScanFault::NoMemory
    }
}
