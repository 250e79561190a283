// What every disk promises, whatever keeps its sectors.

ghost use Rattle.std.specs.Prelude.{◌≡◌, ◌≤◌, ◌<◌, ◌+◌, ⊤, ℕ, Bool, List, [], length, IsTrue, OnOk, OnErr, slice_get, Some, map};
ghost use Rattle.life_bytes.specs.declared.sector.Sector.{Sector};
ghost use Rattle.life_ports.specs.Faults.{HasCause};
ghost use Rattle.disk_model.specs.Disk.{Cell, IsImage, as_read, written, flushed, IsPartlyWritten, Elapses, Arming, unarmed, after_write};
ghost use Rattle.disk_model.specs.Disk.{CallKind, FailsAs};
ghost use Rattle.disk_model.specs.Disk.CallKind.{ReadCall, WriteCall, FlushCall};

use life_bytes::Sector;
use life_ports::Failed;

/// A disk of whole sectors, which are numbered from 0.
///
/// A sector is written whole or not at all. Until a flush succeeds, a stop may leave in a sector what was
/// there at the last flush that succeeded, or any value that was written since. Where a disk does not tell
/// what it holds (`known` is false), nothing is said of its content.
pub trait Disk: Drop {
    /// Whether disks of this kind tell what they hold.
    ghost known: { Bool };

    /// The number of sectors, which no call changes.
    ghost sector_count: { Self → ℕ };

    /// How many faults the disk has had.
    ghost fault_count: { Self → ℕ };

    /// What a read of each sector gives, and what a stop may leave in it.
    ghost cells: { Self → List Cell };

    /// The moment, as a number that does not fall.
    ghost moment: { Self → ℕ };

    /// What a stop at some moment since then may have left, in a call or between two.
    ghost left_since: { Self → ℕ → List Sector → Type 0 };

    /// What is armed, whether the disk has stopped, and how many calls failed by earlier stops: nothing, no
    /// and none, but for a kind that tests stops.
    ghost arming: { Self → Arming } = { λ _. unarmed };

    /// Between two states of a disk there were calls, and of those only calls of this kind failed. So code over
    /// every disk can be held to name the kind of call that failed. A kind of disk may say what it knows of that.
    ghost only_failed: { CallKind → Self → Self → Type 0 } = { λ _ _ _. ⊤ };

    /// The number of sectors.
    fn sectors(&self) -> u64
        ensures { result ≡ sector_count self.now };

    /// The count of faults. It stands still at `u64::MAX`.
    fn faults(&self) -> u64
        ensures { result ≡ fault_count self.now };

    /// Reads the sector `at`. After `Failed` nothing is said of `into`.
    fn read(&mut self, at: u64, into: &mut Sector) -> Result<(), Failed>
        requires { at < sector_count self.old }
        ensures read { IsTrue known → OnOk result (slice_get (as_read (cells self.old)) at ≡ Some into.new) }
        ensures cells { cells self.new ≡ cells self.old }
        ensures time { IsTrue known → Elapses (moment self.old) (moment self.new) (left_since self.old)
            (left_since self.new) (IsImage (cells self.old)) }
        ensures sectors { sector_count self.new ≡ sector_count self.old }
        ensures arming { arming self.new ≡ arming self.old }
        ensures kind { FailsAs ReadCall result (λ kind. only_failed kind self.old self.new) }
        ensures cause { HasCause result (fault_count self.old) (fault_count self.new) };

    /// Writes whole sectors, the first of them the sector `at`.
    fn write(&mut self, at: u64, pieces: &[Sector]) -> Result<(), Failed>
        requires some { 0 < length pieces.now }
        requires within { at + length pieces.now ≤ sector_count self.old }
        ensures written { IsTrue known → OnOk result (cells self.new ≡ written at pieces.now (cells self.old)) }
        ensures failed { IsTrue known → OnErr result (IsPartlyWritten at pieces.now (cells self.old) (cells self.new)) }
        ensures time { IsTrue known → Elapses (moment self.old) (moment self.new) (left_since self.old)
            (left_since self.new) (IsImage (written at pieces.now (cells self.old))) }
        ensures sectors { sector_count self.new ≡ sector_count self.old }
        ensures arming { arming self.new ≡ after_write (arming self.old) }
        ensures kind { FailsAs WriteCall result (λ kind. only_failed kind self.old self.new) }
        ensures cause { HasCause result (fault_count self.old) (fault_count self.new) };

    /// After it has succeeded, a stop leaves what a read gives. One that failed settles nothing.
    fn flush(&mut self) -> Result<(), Failed>
        ensures flushed { IsTrue known → OnOk result (cells self.new ≡ flushed (cells self.old)) }
        ensures failed { OnErr result (cells self.new ≡ cells self.old) }
        ensures time { IsTrue known → Elapses (moment self.old) (moment self.new) (left_since self.old)
            (left_since self.new) (IsImage (cells self.old)) }
        ensures sectors { sector_count self.new ≡ sector_count self.old }
        ensures arming { arming self.new ≡ arming self.old }
        ensures kind { FailsAs FlushCall result (λ kind. only_failed kind self.old self.new) }
        ensures cause { HasCause result (fault_count self.old) (fault_count self.new) };

    /// Each sector has its cell.
    ghost cells_fit: { IsTrue known → (disk : Self) → length (cells disk) ≡ sector_count disk };

    /// This moment is one of those since an earlier one.
    ghost counts_now: { IsTrue known → (disk : Self) (since : ℕ) (image : List Sector) → since ≤ moment disk
        → IsImage (cells disk) image → left_since disk since image };

    /// Since this moment there is no other.
    ghost only_now: { IsTrue known → (disk : Self) (image : List Sector)
        → left_since disk (moment disk) image → IsImage (cells disk) image };

    /// Where no call was made, none failed.
    ghost none_failed: { (kind : CallKind) (disk : Self) → only_failed kind disk disk };

    /// What holds of calls and of the calls behind them holds of all.
    ghost both_failed: { (kind : CallKind) (first second third : Self) → only_failed kind first second
        → only_failed kind second third → only_failed kind first third };
}
