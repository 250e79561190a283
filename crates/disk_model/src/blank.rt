// Disks of zero bytes.
ghost use Rattle.std.specs.Prelude.{◌≡◌, IsTrue, IfOk, replicate};
ghost use Rattle.life_bytes.specs.Sectors.{zero_sector};
ghost use Rattle.disk_model.specs.Disk.{settled_as};

use crate::Disk;
use life_ports::NoMemory;
use std::alloc::Global;

/// A disk that can be made with nothing on it.
pub trait Blank: Disk + Sized {
    /// A disk of so many sectors of zero bytes, which is all that a stop may leave.
    fn blank(alloc: Global, sectors: u64) -> Result<Self, NoMemory>
        ensures sectors { IfOk result (λ disk. Self.sector_count disk ≡ sectors) }
        ensures blank { IfOk result (λ disk. IsTrue Self.known →
            Self.cells disk ≡ settled_as (replicate sectors zero_sector)) };
}
