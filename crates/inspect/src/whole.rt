//! The whole image of a disk.

ghost use Rattle.std.specs.Prelude.{◌≡◌, ◌≤◌, ◌+◌, ℕ, IsTrue, IsErrOf, IfOk, IfErr};
ghost use Rattle.life_ports.specs.Faults.{Rose};
ghost use Rattle.geometry.specs.Shape.{IsGeometry};
ghost use Rattle.geometry.specs.Places.{anchor_of};
ghost use Rattle.disk_model.specs.Disk.{as_read};
ghost use Rattle.disk_model.specs.View.{OnlyRead};
ghost use Rattle.recovery.specs.Found.{HasGroupImages, LogIsFound};
ghost use Rattle.inspect.specs.Faults.{NamesFirstDamage};
ghost use Rattle.inspect.specs.Inspected.{IsSoundWith};

use crate::fault::InspectFault;
use crate::front::read_geometry;
use crate::replayed::check_replayed;
use disk_model::Disk;
use geometry::Geometry;
use image_rules::Tables;
use recovery::{Found, scan};
use std::alloc::Global;
use whole_image::{one_first_damage, sound_images_represent_a_table};

/// What an inspection finds in a sound image.
#[derive(Drop)]
pub struct Inspection {
    pub geometry: Geometry,
    /// How many chunks, inodes in use, and inodes in use without links its table has.
    pub tables: Tables,
    /// What its log says.
    pub log: Found,
}

/// Checks the image of a disk by all rules of a sound image, and also tells what its log says, so that whoever replays it need not scan it again.
///
/// It only reads, and reads each sector that it needs once: the superblock, the anchor, the ring, and what the format has in the groups. It answers damage by
/// the number of the rule and the number of the sector.
pub fn inspect_with_log<D: Disk>(alloc: Global, disk: &mut D) -> Result<Inspection, InspectFault>
    // Where the disk tells what it holds, its image is sound where it is Ok, and else damage is the first of it.
    ensures sound { IsTrue D.known → IfOk result (λ found. IsSoundWith (as_read (D.cells disk.old)) found.geometry found.tables found.log.next_commit) }
    ensures log { IsTrue D.known → IfOk result (λ found. LogIsFound (as_read (D.cells disk.old)) (anchor_of found.geometry) found.geometry.ring found.log) }
    ensures first_damage { IsTrue D.known → IfErr result (NamesFirstDamage (as_read (D.cells disk.old))) }
    // Whether it tells or not.
    ensures shape { IfOk result (λ found. IsGeometry found.geometry) }
    ensures size { IfOk result (λ found. anchor_of found.geometry + 1 + found.geometry.ring ≤ D.sector_count disk.old) }
    ensures homes { IfOk result (λ found. HasGroupImages (anchor_of found.geometry) found.log) }
    ensures number { IfOk result (λ found. 1 ≤ found.log.next_commit) }
    ensures only_reads { OnlyRead D.known D.cells D.sector_count D.fault_count D.arming D.moment D.left_since disk.old disk.new }
    ensures read_fault { IsErrOf result InspectFault.ReadFault → Rose (D.fault_count disk.old) (D.fault_count disk.new) }
{
    one_first_damage();
    sound_images_represent_a_table();
    let geometry = read_geometry(disk)?;
    let log = scan(alloc, disk, &geometry)?;
    let tables = check_replayed(alloc, disk, &geometry, &log)?;
    Ok(Inspection {
        geometry,
        tables,
        log,
    })
}

/// Checks the image of a disk by all rules of a sound image: its geometry, and how many chunks, inodes in use, and inodes in use without links its table has; or
/// its first damage, which is by the least rule that is broken and names the least sector at which it is. It only reads.
pub fn inspect<D: Disk>(alloc: Global, disk: &mut D) -> Result<(Geometry, Tables), InspectFault>
    // Where the disk tells what it holds, its image is sound where it is Ok, and else damage is the first of it.
    ensures sound { IsTrue D.known → IfOk result (λ found. (next : ℕ) × IsSoundWith (as_read (D.cells disk.old)) found.0 found.1 next) }
    ensures first_damage { IsTrue D.known → IfErr result (NamesFirstDamage (as_read (D.cells disk.old))) }
    // Whether it tells or not.
    ensures shape { IfOk result (λ found. IsGeometry found.0) }
    ensures size { IfOk result (λ found. anchor_of found.0 + 1 + found.0.ring ≤ D.sector_count disk.old) }
    ensures only_reads { OnlyRead D.known D.cells D.sector_count D.fault_count D.arming D.moment D.left_since disk.old disk.new }
    ensures read_fault { IsErrOf result InspectFault.ReadFault → Rose (D.fault_count disk.old) (D.fault_count disk.new) }
{
    let found = inspect_with_log(alloc, disk)?;
    Ok((found.geometry, found.tables))
}
