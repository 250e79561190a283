// The sectors of an image of one group, and the group that they are loaded as.
ghost use Rattle.std.specs.Prelude.{◌≡◌, IfOk, length, replicate};
ghost use Rattle.life_bytes.specs.Sectors.{zero_sector};
ghost use Rattle.disk_model.specs.Disk.{settled_as};
ghost use Rattle.disk_model.specs.MemoryDisk.{cells_of};
ghost use Rattle.geometry.specs.Shape.{IsGeometry};
ghost use Rattle.tests_group_ops.specs.Standing.{Stands};

use disk_model::{Disk, MemoryDisk};
use geometry::{Geometry, image_sectors};
use group_core::{Group, begin_group};
use group_ops::GroupState;
use image_make::make;
use inode_core::CORE_CRC_AT;
use inspect::inspect;
use life_bytes::{Sector, put_crc, put_u32};
use log_record::Commit;
use mount::load_groups;
use std::alloc::Global;
use std::test::Fail;

/// One group, of 64 blocks or of twice as many.
pub(crate) fn one_group(wide: bool) -> Geometry
    ensures { IsGeometry result }
{
    Geometry {
        version: 1,
        groups: 1,
        blocks: if wide { 128 } else { 64 },
        ring: 256,
        uuid: [0, 1, 2, 3, 4, 5, 6, 7, 8, 9, 10, 11, 12, 13, 14, 15],
    }
}

/// A disk of zero bytes.
fn blank(alloc: Global, sectors: u64) -> Result<MemoryDisk, Fail>
    ensures blank { IfOk result (λ disk. cells_of disk ≡ settled_as (replicate (length (cells_of disk)) zero_sector)) }
    ensures sectors { IfOk result (λ disk. length (cells_of disk) ≡ sectors) }
{
    Ok(MemoryDisk::new(alloc, sectors)?)
}

/// The sectors of an image without a chunk.
pub(crate) fn empty_image(alloc: Global, g: &Geometry) -> Result<Vec<Sector>, Fail>
    requires { IsGeometry g.now }
{
    let mut disk = blank(alloc, image_sectors(g))?;
    let Ok(()) = make(g, &mut disk) else {
        return Err("not made".into());
    };
    let mut sectors = Vec::new(alloc);
    for at in 0..disk.sectors() {
        sectors.push(disk.sector(at))?;
    }
    Ok(sectors)
}

/// The group that an image's sectors are loaded as, once all rules are checked.
pub(crate) fn load(
    alloc: Global,
    g: &Geometry,
    sectors: &[Sector],
) -> Result<Group<GroupState>, Fail>
    requires { IsGeometry g.now }
    ensures { IfOk result Stands }
{
    let mut disk = MemoryDisk::with(alloc, Vec::from_slice(alloc, sectors)?)?;
    if disk.sectors() < image_sectors(g) {
        return Err("too short".into());
    }
    let Ok(mut groups) = load_groups(alloc, &mut disk, g) else {
        return Err("not loaded".into());
    };
    Ok(begin_group(alloc, groups.swap_remove(0))?)
}

/// How many inodes in use an image has that is sound by all rules.
pub(crate) fn judge(alloc: Global, sectors: &[Sector]) -> Result<u64, Fail> {
    let mut disk = MemoryDisk::with(alloc, Vec::from_slice(alloc, sectors)?)?;
    match inspect(alloc, &mut disk) {
        Ok((_, tables)) => Ok(tables.inodes),
        Err(_) => Err("not sound".into()),
    }
}

/// Puts the images of a commit home.
pub(crate) fn put_home(sectors: &mut [Sector], commit: &Commit) {
    for image in commit.images.as_slice() {
        let home = image.home as usize;
        if home < sectors.len() {
            sectors[home] = image.sector;
        }
    }
}

/// A field of an inode's core.
#[derive(Clone, Copy)]
pub(crate) enum Field {
    Links,
    Generation,
}

/// Stores a field of an inode, and the checksum that its sector then has.
pub(crate) fn store_field(sectors: &mut [Sector], number: u64, field: Field, value: u32) {
    let at = match field {
        Field::Links => 16,
        Field::Generation => 92,
    };
    let home = number as usize;
    if home < sectors.len() {
        put_u32(&mut sectors[home].bytes, at, value);
        put_crc(&mut sectors[home].bytes, CORE_CRC_AT);
    }
}
