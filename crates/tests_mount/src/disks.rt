// Disks in memory that are mounted.
use disk_model::{Disk, MemoryDisk};
use life_bytes::Sector;
use sample_images::ANCHOR;
use std::alloc::Global;
use std::test::Fail;

/// The sectors that a disk reads as.
pub(crate) fn sectors_of<D: Disk>(alloc: Global, disk: &mut D) -> Result<Vec<Sector>, Fail> {
    let mut sectors = Vec::new(alloc);
    for at in 0..disk.sectors() {
        let mut sector = Sector::zero();
        if at >= disk.sectors() {
            return Err("too small".into());
        }
        let Ok(()) = disk.read(at, &mut sector) else {
            return Err("not read".into());
        };
        sectors.push(sector)?;
    }
    Ok(sectors)
}

/// Whether two images have the same sectors, those of the groups.
pub(crate) fn have_same_groups(found: &[Sector], want: &[Sector]) -> bool {
    let mut same = found.len() == want.len();
    for (a, b) in found.iter().zip(want).take(ANCHOR) {
        same = same && a == b;
    }
    same
}
