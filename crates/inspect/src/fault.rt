//! Why an image is not sound, or was not checked.

ghost use Rattle.std.specs.Prelude.{◌≡◌};
ghost use Rattle.inspect.specs.Faults.{of_check, of_scan, of_superblock};
ghost use Rattle.inspect.specs.declared.fault.InspectFault.TheVariants.{ReadFault};

use geometry::Damaged;
use image_rules::CheckFault;
use life_ports::Failed;
use recovery::ScanFault;

/// Why there is no answer that the image is sound.
#[derive(Clone, Copy, Debug, PartialEq, Eq)]
pub enum InspectFault {
    /// The least rule that is broken, by its number, and the least sector that is named for it.
    Damaged { rule: u32, sector: u64 },
    /// A read of the disk failed.
    ReadFault,
    NoMemory,
}

impl From<Failed> for InspectFault {
    ghost from_gives = { λ _ e. e ≡ ReadFault };

    fn from(_: Failed) -> InspectFault {
        InspectFault::ReadFault
    }
}

impl From<Damaged> for InspectFault {
    ghost from_gives = { λ damage e. e ≡ of_superblock damage };

    fn from(damage: Damaged) -> InspectFault {
        InspectFault::Damaged {
            rule: damage.rule,
            sector: damage.sector,
        }
    }
}

impl From<ScanFault> for InspectFault {
    ghost from_gives = { λ fault e. e ≡ of_scan fault };

    fn from(fault: ScanFault) -> InspectFault {
        match fault {
            ScanFault::Damaged { rule, sector } => InspectFault::Damaged { rule, sector },
            ScanFault::ReadFault => InspectFault::ReadFault,
            ScanFault::NoMemory => InspectFault::NoMemory,
        }
    }
}

impl From<CheckFault> for InspectFault {
    ghost from_gives = { λ fault e. e ≡ of_check fault };

    fn from(fault: CheckFault) -> InspectFault {
        match fault {
            CheckFault::Damaged { rule, sector } => InspectFault::Damaged { rule, sector },
            CheckFault::ReadFault => InspectFault::ReadFault,
            CheckFault::NoMemory => InspectFault::NoMemory,
        }
    }
}
