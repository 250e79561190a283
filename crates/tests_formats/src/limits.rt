// The edges of the lists of the formats: the last values that are taken, and the first that are refused.
use ag_header::{AGI_CRC_AT, AGI_UNLINKED_AT};
use extent_fork::{RunsFault, runs_of};
use geometry::{Geometry, SUPERBLOCK_CRC_AT, image_sectors, number};
use inobt_leaf::{LEAF_CRC_AT, LEAF_RECORDS_AT, Leaf, LeafFault};
use inode_core::{CORE_CRC_AT, FORK_AT};
use life_bytes::{Sector, put_u64};
use log_record::read_record;
use std::alloc::Global;
use std::test::Fail;

const UUID: [u8; 16] = [0, 1, 2, 3, 4, 5, 6, 7, 8, 9, 10, 11, 12, 13, 14, 15];

/// Whether an inode takes so many runs of one block each.
fn takes_runs(alloc: Global, count: u32) -> Result<bool, Fail> {
    let mut blocks = Vec::new(alloc);
    for place in 0..count {
        if place < 100 {
            blocks.push(24 + 2 * place)?;
        }
    }
    if !blocks.iter().all(|block| *block < 16_384) {
        return Ok(false);
    }
    match runs_of(alloc, &blocks) {
        Ok(_) => Ok(true),
        Err(RunsFault::TooManyExtents) => Ok(false),
        Err(RunsFault::NoMemory) => Err("no memory".into()),
    }
}

/// Whether a leaf takes so many chunks.
fn takes_chunks(alloc: Global, count: u32) -> Result<bool, Fail> {
    let mut leaf = Leaf::new(alloc);
    for place in 0..count {
        let start = 64 * (place % 1024);
        if leaf.find(start).is_some() {
            return Ok(false);
        }
        match leaf.add(start) {
            Ok(()) => {}
            Err(LeafFault::LeafFull) => return Ok(false),
            Err(LeafFault::NoMemory) => return Err("no memory".into()),
        }
    }
    Ok(true)
}

/// Puts a byte in its place among those that the sectors of a record carry, 496 each.
fn put_carried(ring: &mut [Sector; 256], at: usize, byte: u8) {
    if at / 496 < 256 {
        ring[at / 496].bytes[16 + at % 496] = byte;
    }
}

/// Whether a record of so many images is read, which stands at the front of a ring.
fn takes_images(alloc: Global, images: u8, sectors: u8) -> Result<bool, Fail> {
    let mut ring = [Sector::zero(); 256];
    for place in 0..sectors {
        let bytes = &mut ring[place as usize].bytes;
        put_u64(bytes, 0, 256 + u64::from(place));
        put_u64(bytes, 8, 256);
    }
    // the tail, the first commit's number, the number of commits, of images and of sectors
    for (at, byte) in [(6, 1), (15, 1), (19, 1), (23, images), (27, sectors)] {
        put_carried(&mut ring, at, byte);
    }
    for image in 0..images {
        put_carried(&mut ring, 32 + 520 * image as usize + 7, image);
    }
    let found = read_record(alloc, &ring, 256)?;
    Ok(found.is_some_and(|record| record.images.len() == images as usize))
}

#[test]
fn an_inode_takes_so_many_runs(rt: HostRuntime) -> Result<(), Fail> {
    for (runs, taken) in [(0, true), (21, true), (22, false)] {
        assert_eq!(rt; takes_runs(rt.alloc(), runs)?, taken, "{runs} runs");
    }
    Ok(())
}

#[test]
fn a_leaf_takes_so_many_chunks(rt: HostRuntime) -> Result<(), Fail> {
    for (chunks, taken) in [(252, true), (253, false)] {
        assert_eq!(rt; takes_chunks(rt.alloc(), chunks)?, taken, "{chunks} chunks");
    }
    Ok(())
}

#[test]
fn a_record_takes_so_many_images(rt: HostRuntime) -> Result<(), Fail> {
    for (images, sectors, taken) in [(0, 1, true), (128, 135, true), (129, 136, false)] {
        assert_eq!(rt;
            takes_images(rt.alloc(), images, sectors)?,
            taken,
            "{images} images"
        );
    }
    Ok(())
}

#[test]
fn the_largest_image_and_the_places_of_fields(rt: HostRuntime) {
    let largest = Geometry {
        version: 1,
        groups: 16,
        blocks: 16_384,
        ring: 65_536,
        uuid: UUID,
    };
    assert_eq!(rt; image_sectors(&largest), 2_162_689);
    assert_eq!(rt; number(15, 131_071), 2_097_151);
    assert_eq!(rt;
        (SUPERBLOCK_CRC_AT, AGI_UNLINKED_AT, AGI_CRC_AT),
        (40, 40, 312)
    );
    assert_eq!(rt; (CORE_CRC_AT, FORK_AT), (100, 176));
    assert_eq!(rt; (LEAF_CRC_AT, LEAF_RECORDS_AT), (52, 56));
}
