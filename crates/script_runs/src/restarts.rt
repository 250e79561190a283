// Disks that go on after a stop.

ghost use Rattle.std.specs.Prelude.{◌≡◌, false, None};

use disk_model::{Disk, StopDisk, Stops};

/// A disk on which a stop can be armed, and that can go on after it.
pub trait Restarts: Stops {
    /// Lets a disk that has stopped go on, as one that power comes back to. Nothing is armed then. Its faults stay counted.
    fn restart(&mut self)
        ensures goes_on { (Self.arming self.new).stopped ≡ false }
        ensures unarmed { (Self.arming self.new).armed ≡ None }
        ensures cells { Self.cells self.new ≡ Self.cells self.old }
        ensures sectors { Self.sector_count self.new ≡ Self.sector_count self.old }
        ensures count { Self.fault_count self.new ≡ Self.fault_count self.old };
}

impl<D: Disk> Restarts for StopDisk<D> {
    fn restart(&mut self) {
        StopDisk::restart(self)
    }
}

/// The disk, restarted.
pub(crate) fn restarted<D: Restarts>(disk: D) -> D
    ensures goes_on { (D.arming result).stopped ≡ false }
    ensures unarmed { (D.arming result).armed ≡ None }
    ensures cells { D.cells result ≡ D.cells disk }
    ensures sectors { D.sector_count result ≡ D.sector_count disk }
    ensures count { D.fault_count result ≡ D.fault_count disk }
{
    let mut disk = disk;
    disk.restart();
    disk
}
