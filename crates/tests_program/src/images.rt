// The image that the first file leaves, and images with other bytes.

use crate::runs::{no_disk, run_words};
use disk_model::{Disk, FaultDisk, MemoryDisk};
use life_bytes::{Sector, put_bytes, put_crc, put_u8, put_u64};
use std::alloc::Global;
use std::test::Fail;

const UUID: [u8; 16] = [0, 1, 2, 3, 4, 5, 6, 7, 8, 9, 10, 11, 12, 13, 14, 15];

/// A byte that is changed: its sector, its place there, and the new value.
pub(crate) type Change = (usize, usize, u8);

/// The sectors of a disk that a run handed back.
pub(crate) fn sectors_of(
    alloc: Global,
    disk: Option<FaultDisk<MemoryDisk>>,
) -> Result<Vec<Sector>, Fail> {
    let Some(disk) = disk else {
        return Err("no disk was handed back".into());
    };
    let disk = disk.into_inner();
    let mut sectors = Vec::new(alloc);
    for at in 0..disk.sectors() {
        sectors.push(disk.sector(at))?;
    }
    Ok(sectors)
}

/// What `make` leaves with these words.
pub(crate) fn made_with(alloc: Global, words: &[&str]) -> Result<Vec<Sector>, Fail> {
    let ended = run_words(alloc, &mut no_disk(alloc), words, "")?;
    sectors_of(alloc, ended.disk)
}

/// What it leaves of one group of 64 blocks, and a ring of 256 sectors from sector 513 on.
pub(crate) fn made_image(alloc: Global) -> Result<Vec<Sector>, Fail> {
    made_with(alloc, &["make", "s", "1", "64", "256"])
}

fn put(image: &mut Vec<Sector>, at: usize, sector: Sector) {
    if at < image.len() {
        image[at] = sector;
    }
}

/// A free inode of the first generation.
fn free_inode(number: u8) -> Sector {
    let mut sector = Sector::zero();
    put_bytes(&mut sector.bytes, 0, b"IN\0\0\x03\x02");
    put_u8(&mut sector.bytes, 95, 1);
    put_bytes(&mut sector.bytes, 96, b"\xff\xff\xff\xff");
    put_u8(&mut sector.bytes, 159, number);
    put_bytes(&mut sector.bytes, 160, &UUID);
    put_crc(&mut sector.bytes, 100);
    sector
}

/// Changes one byte.
pub(crate) fn change(image: &mut Vec<Sector>, (sector, at, value): Change) {
    if sector < image.len() && at < 512 {
        image[sector].bytes[at] = value;
    }
}

/// Sets the checksum right that stands at this place of a sector.
fn seal(image: &mut Vec<Sector>, sector: usize, at: usize) {
    if sector < image.len() && at < 508 {
        put_crc(&mut image[sector].bytes, at);
    }
}

/// The first sector of a page.
fn first_of(page: &[u8; 4096]) -> Sector {
    let mut sector = Sector::zero();
    sector.bytes.copy_from_slice(&page[..512]);
    sector
}

/// The first sector of a page whose other sectors are zero, with the page's checksum right.
fn sealed_page(first: &Sector) -> Sector {
    let mut page = [0; 4096];
    page[..512].copy_from_slice(&first.bytes);
    put_crc(&mut page, 52);
    first_of(&page)
}

/// Sets the checksum right of the page whose first sector is 16.
fn seal_page(image: &mut Vec<Sector>) {
    let Some(first) = image.get(16) else {
        return;
    };
    let sealed = sealed_page(first);
    put(image, 16, sealed);
}

/// Sets the checksum right of what stands in a sector, where it has one.
fn reseal(image: &mut Vec<Sector>, sector: usize) {
    match sector {
        0 => seal(image, sector, 40),
        2 => seal(image, sector, 312),
        16 => seal_page(image),
        192..256 => seal(image, sector, 100),
        512 => seal(image, sector, 4),
        _ => {}
    }
}

/// Changes bytes, and sets the checksums right.
pub(crate) fn apply(image: &mut Vec<Sector>, changes: &[Change]) {
    for item in changes {
        change(image, *item);
    }
    for (sector, _, _) in changes {
        reseal(image, *sector);
    }
}

/// Makes sectors zero.
pub(crate) fn clear(image: &mut Vec<Sector>, sectors: &[usize]) {
    for at in sectors {
        put(image, *at, Sector::zero());
    }
}

/// Puts a byte where the record at position 512 carries it, 496 in each of its sectors.
fn put_carried(image: &mut Vec<Sector>, at: usize, byte: u8) {
    change(image, (513 + at / 496, 16 + at % 496, byte));
}

/// Puts a sector into the record, as its image with this number.
fn log(image: &mut Vec<Sector>, number: u8, home: u8) {
    let at = 32 + 520 * number as usize;
    put_carried(image, at + 7, home);
    for place in 0..512 {
        let byte = image.get(home as usize).map_or(0, |s| s.bytes[place]);
        put_carried(image, at + 8 + place, byte);
    }
}

/// Puts the record of the first commit at position 512: 67 images in 71 sectors.
fn log_chunk(image: &mut Vec<Sector>) {
    for place in 0..71_u8 {
        let mut sector = Sector::zero();
        put_u64(&mut sector.bytes, 0, 512 + u64::from(place));
        put_u64(&mut sector.bytes, 8, 512);
        put(image, 513 + place as usize, sector);
    }
    // The tail, the commit's number, and how many commits, images and sectors there are.
    for (at, byte) in [(6, 2), (15, 1), (19, 1), (23, 67), (27, 71)] {
        put_carried(image, at, byte);
    }
    for (number, home) in [(0, 2), (1, 8), (2, 16)] {
        log(image, number, home);
    }
    for index in 0..64_u8 {
        log(image, 3 + index, 192 + index);
    }
}

/// What the first file changes in the group: a chunk of which inode 192 is in use with one link.
const FIRST_FILE: [Change; 17] = [
    (2, 19, 64),
    (2, 31, 63),
    (8, 3, 0),
    (16, 7, 1),
    (16, 59, 192),
    (16, 63, 63),
    (16, 64, 0xff),
    (16, 65, 0xff),
    (16, 66, 0xff),
    (16, 67, 0xff),
    (16, 68, 0xff),
    (16, 69, 0xff),
    (16, 70, 0xff),
    (16, 71, 0xfe),
    (192, 2, 0x81),
    (192, 3, 0xa4),
    (192, 19, 1),
];

/// What a mount and an unmount change in the log: the anchor's position is 512, and the last record is a cover at position 583, behind commit 1.
const COVERED: [Change; 9] = [
    (512, 14, 2),
    (584, 6, 2),
    (584, 7, 0x47),
    (584, 14, 2),
    (584, 15, 0x47),
    (584, 22, 2),
    (584, 23, 0x47),
    (584, 31, 2),
    (584, 43, 1),
];

/// The image that was made, after a mount in which the first file was created, and an unmount.
pub(crate) fn first_file_image(alloc: Global) -> Result<Vec<Sector>, Fail> {
    let mut image = made_image(alloc)?;
    for number in 192..=255_u8 {
        put(&mut image, number as usize, free_inode(number));
    }
    apply(&mut image, &FIRST_FILE);
    log_chunk(&mut image);
    apply(&mut image, &COVERED);
    Ok(image)
}
