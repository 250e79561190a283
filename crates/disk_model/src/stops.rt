// Disks that can be stopped, for tests of stops.
ghost use Rattle.std.specs.Prelude.{◌≡◌, ◌↔◌, ◌≤◌, ℕ, List, Some};
ghost use Rattle.life_bytes.specs.declared.sector.Sector.{Sector};

use crate::Disk;

/// A disk on which a stop can be armed. The other calls of `Disk` tell what they leave armed.
pub trait Stops: Disk {
    /// Arms a stop, in place of one that is armed: of the `writes`-th write from now on only the first
    /// `sectors` sectors pass, and from then on every call fails. A disk that has stopped stays so.
    fn arm(&mut self, writes: u64, sectors: u64)
        requires { 1 ≤ writes }
        ensures armed { Self.arming self.new ≡ record (Self.arming self.old)
            { armed = Some (record { writes = writes; sectors = sectors }) } }
        ensures cells { Self.cells self.new ≡ Self.cells self.old }
        ensures moment { Self.moment self.new ≡ Self.moment self.old }
        ensures left { (since : ℕ) (image : List Sector) →
            Self.left_since self.new since image ↔ Self.left_since self.old since image }
        ensures sectors { Self.sector_count self.new ≡ Self.sector_count self.old }
        ensures count { Self.fault_count self.new ≡ Self.fault_count self.old };

    /// Whether the disk has stopped.
    fn stopped(&self) -> bool
        ensures { result ≡ (Self.arming self.now).stopped };
}
