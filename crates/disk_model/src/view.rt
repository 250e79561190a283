// What may be read, whatever it is read from.
ghost use Rattle.std.specs.Prelude.{◌≡◌, ◌<◌, ℕ, Bool, List, length, IsTrue, OnOk, Some, slice_get};
ghost use Rattle.life_bytes.specs.declared.sector.Sector.{Sector};
ghost use Rattle.life_ports.specs.Faults.{HasCause, NeverFalls};

use life_bytes::Sector;
use life_ports::Failed;

/// An image of whole sectors that can be read and not written, as a disk that is lent.
///
/// Each kind of view says by `only_read` what a read leaves. A call that takes a view and only reads hands
/// that on: from it follows that what is read, the number of sectors and what the view stands on stay.
pub trait View {
    /// Whether views of this kind tell what they hold.
    ghost known: { Bool };

    /// The number of sectors, which no call changes.
    ghost sector_count: { Self → ℕ };

    /// How many faults the view has had.
    ghost fault_count: { Self → ℕ };

    /// What reads give, sector by sector.
    ghost image: { Self → List Sector };

    /// Between two states of a view there were only reads, any number of them.
    ghost only_read: { Self → Self → Type 0 };

    /// The number of sectors.
    fn sectors(&self) -> u64
        ensures { result ≡ sector_count self.now };

    /// The count of faults. It stands still at `u64::MAX`.
    fn faults(&self) -> u64
        ensures { result ≡ fault_count self.now };

    /// Reads the sector `at`. After `Failed` nothing is said of `into`.
    fn read(&mut self, at: u64, into: &mut Sector) -> Result<(), Failed>
        requires { at < sector_count self.old }
        ensures read { IsTrue known → OnOk result (slice_get (image self.old) at ≡ Some into.new) }
        ensures image { image self.new ≡ image self.old }
        ensures sectors { sector_count self.new ≡ sector_count self.old }
        ensures only_read { only_read self.old self.new }
        ensures cause { HasCause result (fault_count self.old) (fault_count self.new) };

    /// Each sector is in the image.
    ghost image_fits: { IsTrue known → (view : Self) → length (image view) ≡ sector_count view };

    /// A call that reads nothing only reads.
    ghost no_read: { (view : Self) → only_read view view };

    /// So do two calls that each only read.
    ghost both_read: { (first second third : Self) → only_read first second → only_read second third
        → only_read first third };

    /// Reads leave what is read.
    ghost image_stays: { (old new : Self) → only_read old new → image new ≡ image old };

    /// They leave the number of sectors.
    ghost sectors_stay: { (old new : Self) → only_read old new → sector_count new ≡ sector_count old };

    /// The count of faults never falls.
    ghost count_never_falls: { (old new : Self) → only_read old new
        → NeverFalls (fault_count old) (fault_count new) };
}
