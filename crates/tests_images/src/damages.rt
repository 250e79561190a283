// Each rule of a sound image is broken alone, in two ways or more, and the least rule and its least sector are named where several are.
use crate::images::{Change, HELD, change, changed, damaged, inspected, sound_image};
use disk_model::{FaultDisk, MemoryDisk};
use inspect::{InspectFault, inspect};
use sample_images::{GEOMETRY, SECTORS};
use std::alloc::Global;
use std::process::Abort;
use std::test::Fail;

/// Each row's changes, checksums set right, make the image one whose first damage is by this rule and at this sector.
fn answers(rt: &impl Abort, alloc: Global, rows: &[(&[Change], u32, u64)]) -> Result<(), Fail> {
    for (changes, rule, sector) in rows {
        let found = inspected(alloc, changed(alloc, changes)?)?;
        assert_eq!(rt; found, damaged(*rule, *sector), "changes {changes:?}");
    }
    Ok(())
}

#[test]
fn the_image_is_sound(rt: HostRuntime) -> Result<(), Fail> {
    let alloc = rt.alloc();
    assert_eq!(rt;
        inspected(alloc, sound_image(alloc)?)?,
        Ok((GEOMETRY, HELD))
    );
    // A sector of the ring from just before one turn beyond the log's end.
    let image = changed(alloc, &[(1030, 6, 1), (1030, 7, 255)])?;
    assert_eq!(rt; inspected(alloc, image)?, Ok((GEOMETRY, HELD)));
    Ok(())
}

#[test]
fn damages_of_superblock_anchor_and_ring(rt: HostRuntime) -> Result<(), Fail> {
    answers(
        &rt,
        rt.alloc(),
        &[
            (&[(0, 0, 0)], 1, 0),
            (&[(0, 7, 2)], 1, 0),
            (&[(0, 11, 17)], 1, 0),
            (&[(0, 11, 0)], 1, 0),
            (&[(0, 15, 63)], 1, 0),
            (&[(0, 18, 0), (0, 19, 255)], 1, 0),
            (&[(0, 511, 1)], 1, 0),
            (&[(0, 19, 1)], 2, 1281),
            (&[(0, 11, 3)], 2, 1281),
            (&[(1024, 0, 0)], 3, 1024),
            (&[(1024, 14, 0), (1024, 15, 255)], 3, 1024),
            (&[(1024, 23, 0)], 3, 1024),
            (&[(1030, 6, 2)], 4, 1030),
            (&[(1280, 0, 1)], 4, 1280),
            (&[(1280, 0, 1), (1025, 0, 1)], 4, 1025),
        ],
    )
}

#[test]
fn damages_of_headers_and_trees(rt: HostRuntime) -> Result<(), Fail> {
    answers(
        &rt,
        rt.alloc(),
        &[
            (&[(2, 3, 0)], 5, 2),
            (&[(514, 11, 0)], 5, 514),
            (&[(2, 15, 65)], 5, 2),
            (&[(2, 23, 18)], 5, 2),
            (&[(514, 23, 1)], 5, 514),
            (&[(2, 27, 2)], 5, 2),
            (&[(514, 296, 1)], 5, 514),
            (&[(16, 0, 0)], 6, 16),
            (&[(16, 5, 1)], 6, 16),
            (&[(528, 8, 0)], 6, 528),
            (&[(16, 23, 17)], 6, 16),
            (&[(528, 51, 0)], 6, 528),
            (&[(16, 59, 200)], 6, 16),
            (&[(16, 59, 128)], 6, 16),
            (&[(528, 58, 2), (528, 59, 0)], 6, 528),
            (&[(16, 63, 60)], 6, 16),
            (&[(2, 19, 65)], 6, 2),
            (&[(514, 31, 62)], 6, 514),
        ],
    )
}

#[test]
fn damages_of_inodes_and_their_blocks(rt: HostRuntime) -> Result<(), Fail> {
    answers(
        &rt,
        rt.alloc(),
        &[
            (&[(192, 0, 0)], 7, 192),
            (&[(193, 159, 0)], 7, 193),
            (&[(200, 95, 0)], 7, 200),
            (&[(200, 2, 0x81), (200, 3, 0xa4)], 7, 200),
            (&[(706, 160, 1)], 7, 706),
            (&[(192, 71, 4), (192, 62, 0x40)], 8, 192),
            (&[(194, 79, 2)], 8, 194),
            (&[(704, 176, 0x80)], 8, 704),
            (&[(706, 188, 8), (706, 189, 0)], 8, 706),
            (&[(706, 187, 0)], 8, 706),
            (&[(194, 189, 0x20), (8, 4, 0xf8)], 9, 194),
            (&[(194, 188, 3), (194, 189, 0x20), (8, 4, 0xf8)], 9, 194),
            (&[(192, 188, 3), (192, 189, 0xc0), (8, 4, 0xee)], 9, 192),
            (&[(706, 189, 0x20), (520, 4, 0xf8)], 9, 706),
            // A second run of 192 has a block of its first.
            (
                &[
                    (192, 62, 0x40),
                    (192, 71, 4),
                    (192, 79, 2),
                    (192, 198, 6),
                    (192, 204, 4),
                    (192, 205, 0x20),
                    (192, 207, 1),
                ],
                9,
                192,
            ),
        ],
    )
}

#[test]
fn damages_of_bitmaps_and_unlinked_lists(rt: HostRuntime) -> Result<(), Fail> {
    answers(
        &rt,
        rt.alloc(),
        &[
            (&[(8, 4, 0xe9)], 10, 8),
            (&[(8, 7, 0x7f)], 10, 8),
            (&[(8, 0, 1)], 10, 8),
            (&[(11, 511, 1)], 10, 11),
            (&[(521, 0, 1)], 10, 521),
            // Bucket 2 has 194, which has a link; bucket 5 has no inode.
            (&[(2, 48, 0), (2, 49, 0), (2, 50, 0), (2, 51, 194)], 11, 2),
            (
                &[(514, 60, 0), (514, 61, 0), (514, 62, 0), (514, 63, 5)],
                11,
                514,
            ),
            // 193 points at 192, which has a link, or at itself.
            (
                &[(193, 96, 0), (193, 97, 0), (193, 98, 0), (193, 99, 192)],
                11,
                193,
            ),
            (
                &[(705, 96, 0), (705, 97, 0), (705, 98, 0), (705, 99, 193)],
                11,
                705,
            ),
            // No list has 193; an inode with a link points on.
            (
                &[(2, 44, 255), (2, 45, 255), (2, 46, 255), (2, 47, 255)],
                12,
                193,
            ),
            (
                &[
                    (514, 44, 255),
                    (514, 45, 255),
                    (514, 46, 255),
                    (514, 47, 255),
                ],
                12,
                705,
            ),
            (
                &[(192, 96, 0), (192, 97, 0), (192, 98, 0), (192, 99, 193)],
                12,
                192,
            ),
        ],
    )
}

#[test]
fn the_least_rule_and_its_least_sector_are_named(rt: HostRuntime) -> Result<(), Fail> {
    answers(
        &rt,
        rt.alloc(),
        &[
            // Two rules in one group, and in two groups.
            (&[(193, 159, 0), (8, 7, 0x7f)], 7, 193),
            (&[(2, 19, 65), (514, 3, 0)], 5, 514),
            (&[(8, 7, 0x7f), (706, 160, 1)], 7, 706),
            (&[(1030, 6, 2), (2, 3, 0)], 4, 1030),
            // One rule in two groups, and twice in one.
            (&[(704, 0, 0), (200, 95, 0)], 7, 200),
            (&[(255, 0, 0), (192, 0, 0)], 7, 192),
            (&[(520, 7, 0x7f), (8, 7, 0x7f)], 10, 8),
        ],
    )
}

#[test]
fn checksums_count(rt: HostRuntime) -> Result<(), Fail> {
    let alloc = rt.alloc();
    let rows = [
        (0, 43, 1, 0),
        (1024, 4, 3, 1024),
        (514, 315, 5, 514),
        (528, 55, 6, 528),
        (704, 103, 7, 704),
    ];
    for (at, place, rule, sector) in rows {
        let mut image = sound_image(alloc)?;
        let old = image.get(at).map_or(0, |s| s.bytes[place % 512]);
        change(&mut image, (at, place, old ^ 1));
        assert_eq!(rt;
            inspected(alloc, image)?,
            damaged(rule, sector),
            "sector {at}"
        );
    }
    Ok(())
}

#[test]
fn missing_sectors_are_told_and_further_ones_ignored(rt: HostRuntime) -> Result<(), Fail> {
    let alloc = rt.alloc();
    for (count, rule, sector) in [(0, 1, 0), (1, 2, 1), (1280, 2, 1280)] {
        let mut image = sound_image(alloc)?;
        image.truncate(count);
        assert_eq!(rt;
            inspected(alloc, image)?,
            damaged(rule, sector),
            "{count} sectors"
        );
    }
    let mut image = sound_image(alloc)?;
    let last = *image.first().ok_or("no sector")?;
    image.push(last)?;
    assert_eq!(rt; inspected(alloc, image)?, Ok((GEOMETRY, HELD)));
    Ok(())
}

#[test]
fn each_read_fails_once(rt: HostRuntime) -> Result<(), Fail> {
    let alloc = rt.alloc();
    // The superblock, the anchor, the ring; then of each group its header, its page, its inodes and its bitmap.
    let reads = 1 + 1 + 256 + 2 * (1 + 8 + 64 + 4);
    for call in 1..=reads {
        let fails = vec![in alloc; call]?;
        let mut disk = FaultDisk::new(MemoryDisk::with(alloc, sound_image(alloc)?)?, fails);
        assert_eq!(rt;
            inspect(alloc, &mut disk),
            Err(InspectFault::ReadFault),
            "call {call}"
        );
    }
    let fails = vec![in alloc; reads + 1]?;
    let mut disk = FaultDisk::new(MemoryDisk::with(alloc, sound_image(alloc)?)?, fails);
    assert_eq!(rt; inspect(alloc, &mut disk), Ok((GEOMETRY, HELD)));
    assert_eq!(rt; SECTORS, 1281);
    Ok(())
}
