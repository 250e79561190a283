// The whole making of an image.

ghost use Rattle.std.specs.Prelude.{◌≡◌, ◌+◌, ◌⊎◌, ◌≤◌, IsTrue, OnErr, OnOk, Err, replicate};
ghost use Rattle.life_bytes.specs.Sectors.{zero_sector};
ghost use Rattle.life_ports.specs.Faults.{NeverFalls, Rose};
ghost use Rattle.disk_model.specs.Disk.{HasOneImage, as_read, settled_as};
ghost use Rattle.geometry.specs.Shape.{IsGeometry};
ghost use Rattle.geometry.specs.Places.{anchor_of};
ghost use Rattle.image_make.specs.Empty.{AreMade, IsFinished, AwaitsSuperblock};
ghost use Rattle.image_make.specs.Outcome.{FailedOnly, IsBlank, IsBlankOrEmpty, IsEmptyImage, LeavesBlank, LeavesOnly};

use crate::fault::MakeFault;
use crate::filling::write_without_superblock;
use crate::laws::made_images;
use disk_model::Disk;
use geometry::{Geometry, write_super};
use life_bytes::Sector;

/// Makes all but the superblock durable.
fn make_without_superblock<D: Disk>(g: &Geometry, disk: &mut D) -> Result<(), MakeFault>
    requires shape { IsGeometry g.now }
    requires size { anchor_of g.now + 1 + g.now.ring ≤ D.sector_count disk.old }
    requires blank { IsTrue D.known → LeavesBlank (D.cells disk.old) }
    requires zero { IsTrue D.known → AreMade g.now 0 (as_read (D.cells disk.old)) }
    ensures leaves { LeavesOnly D.known D.cells D.sector_count D.moment D.arming D.left_since IsBlank disk.old disk.new }
    ensures made { IsTrue D.known → OnOk result (HasOneImage (D.cells disk.new) × AwaitsSuperblock g.now (as_read (D.cells disk.new))) }
    ensures fault { OnErr result (Rose (D.fault_count disk.old) (D.fault_count disk.new)) }
    ensures count { NeverFalls (D.fault_count disk.old) (D.fault_count disk.new) }
    ensures kind { FailedOnly result (λ kind. D.only_failed kind disk.old disk.new) }
    ensures flush_fault { IsTrue D.known → result ≡ Err MakeFault.FlushFault → AwaitsSuperblock g.now (as_read (D.cells disk.new)) }
{
    let Ok(()) = write_without_superblock(g, disk) else {
        return Err(MakeFault::WriteFault);
    };
    let Ok(()) = disk.flush() else {
        return Err(MakeFault::FlushFault);
    };
    Ok(())
}

/// Makes the superblock durable, which is the last sector to be written.
fn finish<D: Disk>(g: &Geometry, disk: &mut D) -> Result<(), MakeFault>
    requires shape { IsGeometry g.now }
    requires size { anchor_of g.now + 1 + g.now.ring ≤ D.sector_count disk.old }
    requires one { IsTrue D.known → HasOneImage (D.cells disk.old) }
    requires awaits { IsTrue D.known → AwaitsSuperblock g.now (as_read (D.cells disk.old)) }
    ensures leaves { LeavesOnly D.known D.cells D.sector_count D.moment D.arming D.left_since (IsBlankOrEmpty g.now) disk.old disk.new }
    ensures made { IsTrue D.known → OnOk result (HasOneImage (D.cells disk.new) × IsEmptyImage g.now (as_read (D.cells disk.new))) }
    ensures fault { OnErr result (Rose (D.fault_count disk.old) (D.fault_count disk.new)) }
    ensures count { NeverFalls (D.fault_count disk.old) (D.fault_count disk.new) }
    ensures kind { FailedOnly result (λ kind. D.only_failed kind disk.old disk.new) }
    ensures flush_fault { IsTrue D.known → result ≡ Err MakeFault.FlushFault → IsEmptyImage g.now (as_read (D.cells disk.new)) }
{
    made_images();
    let mut sector = Sector::zero();
    write_super(g, &mut sector);
    let Ok(()) = disk.write(0, &[sector]) else {
        return Err(MakeFault::WriteFault);
    };
    let Ok(()) = disk.flush() else {
        return Err(MakeFault::FlushFault);
    };
    Ok(())
}

/// Makes an image without a file on a disk of zero bytes, and takes no memory. The superblock is written last, when all else is durable. So a stop at any
/// moment, and each fault, leaves an image without a superblock, or the whole one.
///
/// Sectors behind the image are left.
pub fn make<D: Disk>(g: &Geometry, disk: &mut D) -> Result<(), MakeFault>
    requires shape { IsGeometry g.now }
    requires size { anchor_of g.now + 1 + g.now.ring ≤ D.sector_count disk.old }
    requires blank { IsTrue D.known → D.cells disk.old ≡ settled_as (replicate (D.sector_count disk.old) zero_sector) }
    // What the disk holds then: the image of the table without a file, sector by sector, and no other that a stop may leave.
    ensures made { IsTrue D.known → OnOk result (HasOneImage (D.cells disk.new) × IsEmptyImage g.now (as_read (D.cells disk.new))) }
    // At every moment, whatever the answer.
    ensures leaves { LeavesOnly D.known D.cells D.sector_count D.moment D.arming D.left_since (IsBlankOrEmpty g.now) disk.old disk.new }
    ensures fault { OnErr result (Rose (D.fault_count disk.old) (D.fault_count disk.new)) }
    ensures count { NeverFalls (D.fault_count disk.old) (D.fault_count disk.new) }
    // A write fault comes of a write, a flush fault of a flush.
    ensures kind { FailedOnly result (λ kind. D.only_failed kind disk.old disk.new) }
    // A flush is tried only when all that comes before it reads as written.
    ensures flush_fault { IsTrue D.known → result ≡ Err MakeFault.FlushFault → AwaitsSuperblock g.now (as_read (D.cells disk.new)) ⊎ IsEmptyImage g.now (as_read (D.cells disk.new)) }
{
    made_images();
    make_without_superblock(g, disk)?;
    finish(g, disk)
}
