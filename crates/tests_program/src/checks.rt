// Checks of images: what is written of each, the exit status, and that the image is as it was.

use crate::images::{Change, apply, change, clear, first_file_image, made_image, sectors_of};
use crate::runs::{disk_with, run_words};
use life_bytes::Sector;
use std::alloc::Global;
use std::process::Abort;
use std::test::Fail;

const MADE: &str = "sound\ngroups 1 blocks 64 ring 256 chunks 0 inodes 0 orphans 0\n";

const FIRST_FILE: &str = "sound\ngroups 1 blocks 64 ring 256 chunks 1 inodes 1 orphans 0\n";

/// A check of an image whose call with this number fails (0: none) writes this and has this exit status, and leaves the image as it was.
fn answers(
    rt: &impl Abort,
    alloc: Global,
    image: &[Sector],
    fails_at: u64,
    written: &str,
    status: u8,
) -> Result<(), Fail> {
    let mut images = disk_with(alloc, image.to_vec(alloc)?, vec![in alloc; fails_at]?)?;
    let ended = run_words(alloc, &mut images, &["check", "disk"], "")?;
    assert_eq!(rt; ended.written.as_str(), written, "call {fails_at}");
    assert_eq!(rt; ended.status.exit_code(), status, "call {fails_at}");
    let after = sectors_of(alloc, ended.disk)?;
    assert!(rt; after.as_slice() == image, "changed by the check");
    Ok(())
}

/// The line of a damage.
fn damage_line(alloc: Global, rule: u32, sector: u64) -> Result<String, Fail> {
    let mut text = String::new(alloc);
    write!(text, "damaged rule {rule} sector {sector}\n")?;
    Ok(text)
}

/// A check of an image answers this damage.
fn is_damaged(
    rt: &impl Abort,
    alloc: Global,
    image: &[Sector],
    rule: u32,
    sector: u64,
) -> Result<(), Fail> {
    let text = damage_line(alloc, rule, sector)?;
    answers(rt, alloc, image, 0, text.as_str(), 8)
}

/// The first file's image with some sectors zero and some bytes changed, checksums set right, has this damage.
fn are_damaged(
    rt: &impl Abort,
    alloc: Global,
    rows: &[(&[usize], &[Change], u32, u64)],
) -> Result<(), Fail> {
    for (zero, changes, rule, sector) in rows {
        let mut image = first_file_image(alloc)?;
        clear(&mut image, zero);
        apply(&mut image, changes);
        is_damaged(rt, alloc, &image, *rule, *sector)?;
    }
    Ok(())
}

#[test]
fn an_image_that_was_made_is_sound(rt: HostRuntime) -> Result<(), Fail> {
    let alloc = rt.alloc();
    let mut image = made_image(alloc)?;
    answers(&rt, alloc, &image, 0, MADE, 0)?;
    // The anchor's position may be so high that nothing can be mounted.
    apply(&mut image, &[(512, 8, 0x40), (512, 14, 0)]);
    answers(&rt, alloc, &image, 0, MADE, 0)
}

#[test]
fn first_file(rt: HostRuntime) -> Result<(), Fail> {
    let alloc = rt.alloc();
    let mut image = first_file_image(alloc)?;
    answers(&rt, alloc, &image, 0, FIRST_FILE, 0)?;
    // A sector behind the ring counts for nothing.
    image.push(Sector::zero())?;
    answers(&rt, alloc, &image, 0, FIRST_FILE, 0)?;
    // Without links, and in its bucket.
    apply(
        &mut image,
        &[
            (192, 19, 0),
            (2, 40, 0),
            (2, 41, 0),
            (2, 42, 0),
            (2, 43, 192),
        ],
    );
    let orphan = "sound\ngroups 1 blocks 64 ring 256 chunks 1 inodes 1 orphans 1\n";
    answers(&rt, alloc, &image, 0, orphan, 0)
}

#[test]
fn three_damages(rt: HostRuntime) -> Result<(), Fail> {
    let alloc = rt.alloc();
    is_damaged(&rt, alloc, &[], 1, 0)?;
    // The generation is another one, and the checksum is wrong.
    let mut image = first_file_image(alloc)?;
    change(&mut image, (192, 92, 1));
    is_damaged(&rt, alloc, &image, 7, 192)?;
    // The inode is its own next one in its bucket.
    are_damaged(
        &rt,
        alloc,
        &[(
            &[],
            &[
                (192, 19, 0),
                (192, 96, 0),
                (192, 97, 0),
                (192, 98, 0),
                (192, 99, 192),
                (2, 40, 0),
                (2, 41, 0),
                (2, 42, 0),
                (2, 43, 192),
            ],
            11,
            192,
        )],
    )
}

#[test]
fn sectors_that_are_missing_are_told(rt: HostRuntime) -> Result<(), Fail> {
    let alloc = rt.alloc();
    for (count, rule, sector) in [(0, 1, 0), (1, 2, 1), (768, 2, 768)] {
        let mut image = first_file_image(alloc)?;
        image.truncate(count);
        is_damaged(&rt, alloc, &image, rule, sector)?;
    }
    Ok(())
}

#[test]
fn damages_of_superblock_and_anchor(rt: HostRuntime) -> Result<(), Fail> {
    are_damaged(
        &rt,
        rt.alloc(),
        &[
            (&[], &[(0, 7, 7)], 1, 0),
            (&[], &[(0, 11, 17)], 1, 0),
            (
                &[],
                &[(512, 0, 0), (512, 1, 0), (512, 2, 0), (512, 3, 0)],
                3,
                512,
            ),
            (&[], &[(512, 14, 0), (512, 15, 255)], 3, 512),
        ],
    )
}

#[test]
fn damages_of_the_log(rt: HostRuntime) -> Result<(), Fail> {
    are_damaged(
        &rt,
        rt.alloc(),
        &[
            // No record begins at the cover's tail.
            (&[], &[(584, 23, 0x3a)], 4, 584),
            // A position far above the end.
            (&[], &[(600, 6, 0x27), (600, 7, 0x10)], 4, 600),
            // Without the cover, a record with the superblock as a home.
            (&[584], &[(513, 55, 0)], 4, 513),
        ],
    )
}

#[test]
fn damages_of_headers_and_trees(rt: HostRuntime) -> Result<(), Fail> {
    are_damaged(
        &rt,
        rt.alloc(),
        &[
            (&[], &[(2, 23, 18)], 5, 2),
            (&[], &[(16, 59, 200)], 6, 16),
            (&[], &[(16, 59, 128)], 6, 16),
            (&[], &[(16, 63, 62), (2, 31, 62)], 6, 16),
            (&[], &[(2, 19, 128)], 6, 2),
        ],
    )
}

#[test]
fn damages_of_inodes_and_their_blocks(rt: HostRuntime) -> Result<(), Fail> {
    are_damaged(
        &rt,
        rt.alloc(),
        &[
            (&[193], &[], 7, 193),
            // One block, and no extent; one of a block that the group has not; one of a block of the chunk.
            (&[], &[(192, 71, 1), (192, 62, 0x10)], 8, 192),
            (
                &[],
                &[
                    (192, 71, 1),
                    (192, 62, 0x10),
                    (192, 79, 1),
                    (192, 188, 8),
                    (192, 191, 1),
                ],
                8,
                192,
            ),
            (
                &[],
                &[
                    (192, 71, 1),
                    (192, 62, 0x10),
                    (192, 79, 1),
                    (192, 188, 3),
                    (192, 191, 1),
                ],
                9,
                192,
            ),
        ],
    )
}

#[test]
fn damages_of_bitmaps_and_unlinked_lists(rt: HostRuntime) -> Result<(), Fail> {
    are_damaged(
        &rt,
        rt.alloc(),
        &[
            (&[], &[(8, 4, 0xfe)], 10, 8),
            // An inode without links in the bucket of another number; a number of no chunk.
            (
                &[],
                &[
                    (192, 19, 0),
                    (2, 44, 0),
                    (2, 45, 0),
                    (2, 46, 0),
                    (2, 47, 192),
                ],
                11,
                2,
            ),
            (
                &[],
                &[(2, 40, 0), (2, 41, 0), (2, 42, 1), (2, 43, 64)],
                11,
                2,
            ),
            // An inode without links in no bucket; one with a link that points on.
            (&[], &[(192, 19, 0)], 12, 192),
            (
                &[],
                &[(192, 96, 0), (192, 97, 0), (192, 98, 0), (192, 99, 193)],
                12,
                192,
            ),
        ],
    )
}

#[test]
fn no_image_is_an_open_fault(rt: HostRuntime) -> Result<(), Fail> {
    let alloc = rt.alloc();
    let mut images = disk_with(alloc, made_image(alloc)?, Vec::new(alloc))?;
    let ended = run_words(alloc, &mut images, &["check", "elsewhere"], "")?;
    assert!(rt; ended.wrote("open fault\n"));
    assert_eq!(rt; ended.status.exit_code(), 5);
    assert!(rt; ended.disk.is_none());
    Ok(())
}

#[test]
fn each_read_fails_once(rt: HostRuntime) -> Result<(), Fail> {
    let alloc = rt.alloc();
    let image = first_file_image(alloc)?;
    // The superblock, the anchor and the ring; then of the group its header, its page, its inodes and its bitmap.
    let reads = 1 + 1 + 256 + 1 + 8 + 64 + 4;
    for call in 1..=reads {
        answers(&rt, alloc, &image, call, "read fault\n", 9)?;
    }
    answers(&rt, alloc, &image, reads + 1, FIRST_FILE, 0)
}
