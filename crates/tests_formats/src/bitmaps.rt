use free_map::{FreeMap, bitmaps_are_the_sets, read_map};
use life_bytes::Sector;
use std::alloc::Global;
use std::process::Abort;
use std::test::Fail;

/// The sectors of a bitmap whose bytes are the given ones, from the first on, and then zero.
fn sectors_of(bytes: &[u8]) -> [Sector; 4] {
    let mut sectors = [Sector::zero(); 4];
    for (place, byte) in bytes.iter().enumerate() {
        if place < 512 {
            sectors[0].bytes[place] = *byte;
        }
    }
    sectors
}

const FRESH: [u8; 8] = [0, 0, 0, 0xff, 0xff, 0xff, 0xff, 0xff];

const FIRST_FILE: [u8; 8] = [0, 0, 0, 0, 0xff, 0xff, 0xff, 0xff];

#[test]
fn the_lowest_run_of_eight_blocks_is_found(rt: HostRuntime) {
    assert_eq!(rt; read_map(&sectors_of(&FRESH), 64).aligned_run(), Some(24));
    assert_eq!(rt; read_map(&sectors_of(&[]), 64).aligned_run(), None);
    assert_eq!(rt;
        read_map(&sectors_of(&FIRST_FILE), 64).aligned_run(),
        Some(32)
    );
}

#[test]
fn first_file(rt: HostRuntime) -> Result<(), Fail> {
    let map = read_map(&sectors_of(&FIRST_FILE), 64);
    assert_eq!(rt; map.blocks(), 64);
    assert_eq!(rt; map.free(), 32);
    assert!(rt; 2 <= map.free());
    assert_eq!(rt; map.lowest(rt.alloc(), 2)?.as_slice(), [32, 33].as_slice());
    bitmaps_are_the_sets();
    Ok(())
}

/// The map of the first file, from which block 32 was taken, and the map before.
fn with_block_taken(rt: &impl Abort) -> (FreeMap, FreeMap) {
    let mut map = read_map(&sectors_of(&FIRST_FILE), 64);
    assert!(rt; map.is_free(32));
    let before = map.copied();
    map.take(32);
    (map, before)
}

#[test]
fn a_block_is_taken(rt: HostRuntime) {
    let (map, before) = with_block_taken(&rt);
    assert_eq!(rt; map.free(), 31);
    assert_eq!(rt; map.aligned_run(), Some(40));
    assert!(rt; !map.is_free(32));
    assert_eq!(rt; before.free(), 32);
    assert!(rt; before.is_free(32));
}

#[test]
fn a_block_is_given_back(rt: HostRuntime) {
    let (mut map, _) = with_block_taken(&rt);
    assert!(rt; 32 < map.blocks() && !map.is_free(32));
    map.give(32);
    let mut written = sectors_of(&[7; 512]);
    map.write_map(&mut written);
    assert_eq!(rt; written, sectors_of(&FIRST_FILE));
}

/// The lowest run of 8 free blocks at a multiple of 8, looked for block by block.
fn plain_run(map: &FreeMap) -> Option<u32> {
    for eighth in 0..map.blocks() / 8 {
        if (0..8).all(|place| map.is_free(8 * eighth + place)) {
            return Some(8 * eighth);
        }
    }
    None
}

/// The free blocks of a map, looked for block by block.
fn plain_blocks(alloc: Global, map: &FreeMap) -> Result<Vec<u32>, Fail> {
    let mut free = Vec::new(alloc);
    for block in 0..map.blocks() {
        if map.is_free(block) {
            free.push(block)?;
        }
    }
    Ok(free)
}

/// A map agrees with a look at each of its blocks.
fn agrees(rt: &impl Abort, alloc: Global, map: &FreeMap) -> Result<(), Fail> {
    let free = plain_blocks(alloc, map)?;
    assert_eq!(rt; map.free() as usize, free.len());
    assert_eq!(rt; map.aligned_run(), plain_run(map));
    let half = map.free() / 2;
    let lowest = map.lowest(alloc, half)?;
    assert!(rt; half as usize <= free.len());
    assert_eq!(rt; lowest.as_slice(), &free[..half as usize]);
    Ok(())
}

/// Bitmaps of these bytes agree with a look at each block, for lengths that end within words and at their ends.
fn maps_agree(rt: &impl Abort, alloc: Global, rows: &[&[u8]]) -> Result<(), Fail> {
    for bytes in rows {
        for blocks in [0, 1, 63, 64, 65, 128, 191, 192] {
            agrees(rt, alloc, &read_map(&sectors_of(bytes), blocks))?;
        }
    }
    Ok(())
}

#[test]
fn agrees_with_a_look_at_each_block(rt: HostRuntime) -> Result<(), Fail> {
    maps_agree(
        &rt,
        rt.alloc(),
        &[
            &[0; 24],
            &[0xff; 24],
            &[0x7f; 24],
            &[0x80; 24],
            &[1; 24],
            &[
                0, 0x80, 0x7f, 0, 0, 0, 0, 0, 0xfe, 0xff, 0, 0, 0, 0, 0, 0, 0, 0, 0, 0x10, 0, 0, 0,
                0xff,
            ],
        ],
    )
}
