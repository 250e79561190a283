// Disks that give more than a sector at a call.
ghost use Rattle.std.specs.Prelude.{◌≡◌, ◌<◌, ◌≤◌, length, IsTrue, IfOk};
ghost use Rattle.life_ports.specs.Faults.{HasCause};
ghost use Rattle.disk_model.specs.Disk.{IsImage, Elapses, FailsAs, as_read};
ghost use Rattle.disk_model.specs.Disk.CallKind.{ReadCall};
ghost use Rattle.disk_file.specs.Window.{IsWindow};

use disk_model::Disk;
use life_bytes::Sector;
use life_ports::Failed;

/// A disk of which one call reads sectors that follow each other.
pub trait ReadsRuns: Disk {
    /// Reads the sectors from `at` on to the front of `into`: as many as it gives at once, and one at least. Gives how many these are.
    /// After `Failed` nothing is said of `into`.
    fn read_run(&mut self, at: u64, into: &mut [Sector]) -> Result<usize, Failed>
        requires some { 0 < length into.old }
        requires within { at < Self.sector_count self.old }
        ensures count { IfOk result (λ count. (0 < count) × (count ≤ length into.new)) }
        ensures read { IsTrue Self.known → IfOk result (λ count. IsWindow (as_read (Self.cells self.old)) at count into.new) }
        ensures cells { Self.cells self.new ≡ Self.cells self.old }
        ensures time { IsTrue Self.known → Elapses (Self.moment self.old) (Self.moment self.new) (Self.left_since self.old)
            (Self.left_since self.new) (IsImage (Self.cells self.old)) }
        ensures sectors { Self.sector_count self.new ≡ Self.sector_count self.old }
        ensures arming { Self.arming self.new ≡ Self.arming self.old }
        ensures kind { FailsAs ReadCall result (λ kind. Self.only_failed kind self.old self.new) }
        ensures cause { HasCause result (Self.fault_count self.old) (Self.fault_count self.new) };
}
