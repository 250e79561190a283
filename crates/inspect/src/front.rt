//! The superblock of a disk's image, and whether it has all its sectors.

ghost use Rattle.std.specs.Prelude.{◌≡◌, ◌≤◌, ◌+◌, IsTrue, IsErrOf, IfOk, IfErr};
ghost use Rattle.life_ports.specs.Faults.{Rose};
ghost use Rattle.geometry.specs.Shape.{IsGeometry};
ghost use Rattle.geometry.specs.Places.{anchor_of};
ghost use Rattle.disk_model.specs.Disk.{as_read};
ghost use Rattle.disk_model.specs.View.{OnlyRead};
ghost use Rattle.sound_image.specs.Superblocks.{HasSuperblock};
ghost use Rattle.inspect.specs.Faults.{NamesFirstDamage};

use crate::fault::InspectFault;
use disk_model::Disk;
use geometry::{Geometry, image_sectors, read_super};
use life_bytes::Sector;
use whole_image::{blank_images_are_damaged, one_first_damage};

/// The rules of the superblock and of the number of sectors, among those of sound images.
const SUPERBLOCK_RULE: u32 = 1;

const SIZE_RULE: u32 = 2;

/// The geometry of a disk's image, where its superblock is right and no sector is missing.
pub(crate) fn read_geometry<D: Disk>(disk: &mut D) -> Result<Geometry, InspectFault>
    ensures superblock { IsTrue D.known → IfOk result (λ g. HasSuperblock g (as_read (D.cells disk.old))) }
    ensures shape { IfOk result IsGeometry }
    ensures size { IfOk result (λ g. anchor_of g + 1 + g.ring ≤ D.sector_count disk.old) }
    ensures first_damage { IsTrue D.known → IfErr result (NamesFirstDamage (as_read (D.cells disk.old))) }
    ensures only_reads { OnlyRead D.known D.cells D.sector_count D.fault_count D.arming D.moment D.left_since disk.old disk.new }
    ensures read_fault { IsErrOf result InspectFault.ReadFault → Rose (D.fault_count disk.old) (D.fault_count disk.new) }
{
    blank_images_are_damaged();
    one_first_damage();
    let sectors = disk.sectors();
    if sectors == 0 {
        return Err(InspectFault::Damaged {
            rule: SUPERBLOCK_RULE,
            sector: 0,
        });
    }
    let mut sector = Sector::zero();
    disk.read(0, &mut sector)?;
    let g = read_super(&sector)?;
    if sectors < image_sectors(&g) {
        return Err(InspectFault::Damaged {
            rule: SIZE_RULE,
            sector: sectors,
        });
    }
    Ok(g)
}
