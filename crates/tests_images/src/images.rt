// A sound image, changed byte by byte.
use ag_header::AGI_CRC_AT;
use disk_model::MemoryDisk;
use geometry::{Geometry, SUPERBLOCK_CRC_AT};
use image_rules::Tables;
use inobt_leaf::LEAF_CRC_AT;
use inode_core::CORE_CRC_AT;
use inspect::{InspectFault, inspect};
use life_bytes::{Sector, put_crc};
use sample_images::{ANCHOR, File, GROUP, Group, NO_INODE, image_of, put_page};
use std::alloc::Global;
use std::test::Fail;

/// How much the image holds.
pub(crate) const HELD: Tables = Tables {
    chunks: 2,
    inodes: 6,
    orphans: 2,
};

/// A byte of a sector that is changed: the sector, the place in it, and the new value.
pub(crate) type Change = (usize, usize, u8);

/// The inodes in use of each group.
const FILES: [File; 3] = [
    File {
        agino: 192,
        generation: 1,
        links: 1,
        next: NO_INODE,
        first: 32,
        blocks: 3,
    },
    File {
        agino: 193,
        generation: 1,
        links: 0,
        next: NO_INODE,
        first: 0,
        blocks: 0,
    },
    File {
        agino: 194,
        generation: 1,
        links: 1,
        next: NO_INODE,
        first: 36,
        blocks: 1,
    },
];

/// The sound image: two groups, each with one chunk of inodes 192 to 255. Inode 192 has one link and blocks 32 to 34, inode 193 no links, and inode 194 one
/// link and block 36; the others are free. The log has no record.
pub(crate) fn sound_image(alloc: Global) -> Result<Vec<Sector>, Fail> {
    let group = Group {
        chunks: &[192],
        files: &FILES,
        freed: &[],
        heads: &[(1, 193)],
    };
    Ok(image_of(alloc, [&group, &group], 256, 1)?)
}

/// Changes one byte.
pub(crate) fn change(image: &mut Vec<Sector>, (sector, at, value): Change) {
    if sector < image.len() && at < 512 {
        image[sector].bytes[at] = value;
    }
}

/// Sets the checksum in a sector right.
fn seal(image: &mut Vec<Sector>, sector: usize, at: usize) {
    if sector < image.len() && at < 508 {
        put_crc(&mut image[sector].bytes, at);
    }
}

/// Sets the checksum of a page right.
fn seal_page(image: &mut Vec<Sector>, from: usize) {
    let mut bytes = [0; 4096];
    for k in 0..8 {
        let at = from.wrapping_add(k);
        if at < image.len() {
            bytes[512 * k..512 * k + 512].copy_from_slice(&image[at].bytes);
        }
    }
    put_crc(&mut bytes, LEAF_CRC_AT);
    put_page(image, from, &bytes);
}

/// Sets the checksum right of what stands in a sector, where it has one.
fn reseal(image: &mut Vec<Sector>, sector: usize) {
    if sector >= ANCHOR {
        if sector == ANCHOR {
            seal(image, sector, 4);
        }
        return;
    }
    match sector % GROUP {
        0 => seal(image, sector, SUPERBLOCK_CRC_AT),
        2 => seal(image, sector, AGI_CRC_AT),
        16..24 => seal_page(image, sector / GROUP * GROUP + 16),
        192..256 => seal(image, sector, CORE_CRC_AT),
        _ => {}
    }
}

/// The sound image with some bytes changed, and the checksums right again.
pub(crate) fn changed(alloc: Global, changes: &[Change]) -> Result<Vec<Sector>, Fail> {
    let mut image = sound_image(alloc)?;
    for item in changes {
        change(&mut image, *item);
    }
    for (sector, _, _) in changes {
        reseal(&mut image, *sector);
    }
    Ok(image)
}

/// What is found of an image.
pub(crate) fn inspected(
    alloc: Global,
    image: Vec<Sector>,
) -> Result<Result<(Geometry, Tables), InspectFault>, Fail> {
    let mut disk = MemoryDisk::with(alloc, image)?;
    Ok(inspect(alloc, &mut disk))
}

/// A damage as it is answered.
pub(crate) fn damaged(rule: u32, sector: u64) -> Result<(Geometry, Tables), InspectFault> {
    Err(InspectFault::Damaged { rule, sector })
}
