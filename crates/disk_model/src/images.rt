// Where disks come from.

ghost use Rattle.std.specs.Prelude.{◌≡◌, ◌≢◌, ◌++◌, ℕ, List, [], ◌∷◌, Option, replicate, IsTrue, IsErrOf, IsSome, IfOk, IfSome, OnErr};
ghost use Rattle.life_bytes.specs.declared.sector.Sector.{Sector};
ghost use Rattle.life_bytes.specs.Sectors.{zero_sector};
ghost use Rattle.life_ports.specs.Faults.{HasCauseOrNoMemory};
ghost use Rattle.disk_model.specs.Disk.{HasOneImage, settled_as};
ghost use Rattle.disk_model.specs.Images.{Given, attached, created};

use crate::Disk;
use life_ports::Refused;

/// Disks that stand at paths. They are seen as the list of what was given.
pub trait Images {
    type Disk: Disk + Send;

    /// What was given so far, in order.
    ghost given: { Self → List Given };

    /// How many faults there were.
    ghost fault_count: { Self → ℕ };

    /// The image that stands at a path, where it is known.
    ghost image_at: { Self → List ℕ → Option (List Sector) };

    /// The count of faults. It stands still at `u64::MAX`.
    fn faults(&self) -> u64
        ensures { result ≡ fault_count self.now };

    /// Gives the disk that stands at a path. It has one image. What stands there stays where it is not given.
    fn attach(&mut self, path: &str) -> Result<Self::Disk, Refused>
        ensures given { IfOk result (λ disk. given self.new ≡ given self.old ++ attached path.now (Self.Disk.fault_count disk) ∷ []) }
        ensures one_image { IfOk result (λ disk. IsTrue Self.Disk.known → HasOneImage (Self.Disk.cells disk)) }
        ensures image { IfOk result (λ disk. IsTrue Self.Disk.known → IfSome (image_at self.old path.now)
            (λ image. Self.Disk.cells disk ≡ settled_as image)) }
        ensures refused { OnErr result (given self.new ≡ given self.old) }
        ensures kept { OnErr result (image_at self.new path.now ≡ image_at self.old path.now) }
        ensures others { (other : List ℕ) → other ≢ path.now → image_at self.new other ≡ image_at self.old other }
        ensures cause { HasCauseOrNoMemory result (fault_count self.old) (fault_count self.new) };

    /// Makes a disk of zero bytes at a path where nothing stands, and gives it. What stands there stays.
    fn create(&mut self, path: &str, sectors: u64) -> Result<Self::Disk, Refused>
        ensures given { IfOk result (λ disk. given self.new ≡ given self.old ++ created path.now (Self.Disk.fault_count disk) ∷ []) }
        ensures sectors { IfOk result (λ disk. Self.Disk.sector_count disk ≡ sectors) }
        ensures blank { IfOk result (λ disk. IsTrue Self.Disk.known → Self.Disk.cells disk ≡ settled_as (replicate sectors zero_sector)) }
        ensures taken { IsSome (image_at self.old path.now) → IsErrOf result Refused.Failed }
        ensures refused { OnErr result (given self.new ≡ given self.old) }
        ensures kept { OnErr result (image_at self.new path.now ≡ image_at self.old path.now) }
        ensures others { (other : List ℕ) → other ≢ path.now → image_at self.new other ≡ image_at self.old other }
        ensures cause { HasCauseOrNoMemory result (fault_count self.old) (fault_count self.new) };
}
