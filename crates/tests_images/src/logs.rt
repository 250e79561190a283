// The log over an image: its groups are checked as the log leaves them, and not as they read.
ghost use Rattle.std.specs.Prelude.{◌≡◌, ◌≤◌, IfOk, length, replicate};
ghost use Rattle.life_bytes.specs.Sectors.{zero_sector};
ghost use Rattle.disk_model.specs.Disk.{settled_as};
ghost use Rattle.disk_model.specs.MemoryDisk.{cells_of};

use crate::images::{HELD, changed, damaged, inspected, sound_image};
use disk_model::MemoryDisk;
use image_make::make;
use image_rules::Tables;
use inspect::{inspect, inspect_with_log};
use life_bytes::{Sector, put_u32, put_u64};
use sample_images::{ANCHOR, GEOMETRY, SECTORS, put};
use std::alloc::Global;
use std::test::Fail;

/// A record of one image, or a cover, which has none.
#[derive(Drop)]
struct Record {
    position: u64,
    tail: u64,
    /// The number of its first commit.
    first: u64,
    image: Option<(u64, Sector)>,
}

/// The sectors of a record: one of a cover, else two.
fn count_of(record: &Record) -> u64
    ensures { result ≤ 2 }
{
    if record.image.is_some() { 2 } else { 1 }
}

/// What the record's sectors have behind their two positions.
fn payload(record: &Record) -> [u8; 992] {
    let mut bytes = [0; 992];
    put_u64(&mut bytes, 0, record.tail);
    put_u64(&mut bytes, 8, record.first);
    put_u32(&mut bytes, 24, count_of(record) as u32);
    if let Some((home, sector)) = &record.image {
        put_u32(&mut bytes, 16, 1);
        put_u32(&mut bytes, 20, 1);
        put_u64(&mut bytes, 32, *home);
        bytes[40..552].copy_from_slice(&sector.bytes);
    }
    bytes
}

/// Writes so many first sectors of a record to their places in the ring.
fn log(image: &mut Vec<Sector>, record: &Record, count: usize) {
    let bytes = payload(record);
    for k in 0..2 {
        if k < count && (k as u64) < count_of(record) {
            let position = record.position.wrapping_add(k as u64);
            let mut sector = Sector::zero();
            put_u64(&mut sector.bytes, 0, position);
            put_u64(&mut sector.bytes, 8, record.position);
            sector.bytes[16..].copy_from_slice(&bytes[496 * k..496 * k + 496]);
            put(image, ANCHOR + 1 + (position % 256) as usize, &sector);
        }
    }
}

/// Sector 192 of the sound image, or one that is no inode.
fn inode_192(alloc: Global, right: bool) -> Result<Sector, Fail> {
    let image = if right {
        sound_image(alloc)?
    } else {
        changed(alloc, &[(192, 0, 0)])?
    };
    Ok(*image.get(192).ok_or("no sector")?)
}

/// A record of one commit with sector 192, which is right or wrong.
fn record_at(alloc: Global, position: u64, first: u64, right: bool) -> Result<Record, Fail> {
    Ok(Record {
        position,
        tail: 256,
        first,
        image: Some((192, inode_192(alloc, right)?)),
    })
}

#[test]
fn the_newest_image_of_a_whole_record_counts(rt: HostRuntime) -> Result<(), Fail> {
    let alloc = rt.alloc();
    // The home sector is wrong, and the log's last word on it is right; and the other way round.
    for (home, older, newer) in [
        (0, false, true),
        (0x49, true, false),
        (0x49, false, true),
        (0, true, false),
    ] {
        let mut image = changed(alloc, &[(192, 0, home)])?;
        log(&mut image, &record_at(alloc, 256, 1, older)?, 2);
        log(&mut image, &record_at(alloc, 258, 2, newer)?, 2);
        let want = if newer {
            Ok((GEOMETRY, HELD))
        } else {
            damaged(7, 192)
        };
        assert_eq!(rt;
            inspected(alloc, image)?,
            want,
            "home {home}, then {older} and {newer}"
        );
    }
    Ok(())
}

#[test]
fn a_torn_record_does_not_count(rt: HostRuntime) -> Result<(), Fail> {
    let alloc = rt.alloc();
    for (count, want) in [(1, Ok((GEOMETRY, HELD))), (2, damaged(7, 192))] {
        let mut image = sound_image(alloc)?;
        log(&mut image, &record_at(alloc, 256, 1, true)?, 2);
        log(&mut image, &record_at(alloc, 258, 2, false)?, count);
        assert_eq!(rt; inspected(alloc, image)?, want, "{count} sectors");
    }
    Ok(())
}

#[test]
fn nothing_before_a_cover_counts(rt: HostRuntime) -> Result<(), Fail> {
    let alloc = rt.alloc();
    let mut image = sound_image(alloc)?;
    log(&mut image, &record_at(alloc, 256, 1, false)?, 2);
    let cover = Record {
        position: 258,
        tail: 258,
        first: 2,
        image: None,
    };
    log(&mut image, &cover, 1);
    let mut disk = MemoryDisk::with(alloc, image)?;
    let Ok(found) = inspect_with_log(alloc, &mut disk) else {
        return Err("damaged".into());
    };
    assert_eq!(rt; (found.geometry, found.tables), (GEOMETRY, HELD));
    assert_eq!(rt;
        (found.log.tail, found.log.end, found.log.next_commit),
        (258, 259, 2)
    );
    Ok(())
}

#[test]
fn damages_of_the_log(rt: HostRuntime) -> Result<(), Fail> {
    let alloc = rt.alloc();
    // A home that is the superblock, one behind the groups, a gap in front of the last record, and commit number 0.
    let rows = [
        (258, 258, 0, 1),
        (258, 258, 1024, 1),
        (258, 256, 192, 1),
        (258, 258, 192, 0),
    ];
    for (position, tail, home, first) in rows {
        let mut image = sound_image(alloc)?;
        let record = Record {
            position,
            tail,
            first,
            image: Some((home, inode_192(alloc, true)?)),
        };
        log(&mut image, &record, 2);
        assert_eq!(rt;
            inspected(alloc, image)?,
            damaged(4, 1027),
            "tail {tail}, home {home}, first {first}"
        );
    }
    Ok(())
}

/// A disk of so many sectors of zero bytes.
fn blank_disk(alloc: Global) -> Result<MemoryDisk, Fail>
    ensures blank { IfOk result (λ disk. cells_of disk ≡ settled_as (replicate (length (cells_of disk)) zero_sector)) }
    ensures sectors { IfOk result (λ disk. length (cells_of disk) ≡ SECTORS) }
{
    Ok(MemoryDisk::new(alloc, SECTORS as u64)?)
}

#[test]
fn an_image_that_was_made_is_sound(rt: HostRuntime) -> Result<(), Fail> {
    let alloc = rt.alloc();
    let mut disk = blank_disk(alloc)?;
    let blank = inspect(alloc, &mut disk);
    assert_eq!(rt; blank, damaged(1, 0));
    let mut disk = blank_disk(alloc)?;
    let Ok(()) = make(&GEOMETRY, &mut disk) else {
        return Err("not made".into());
    };
    let empty = Tables {
        chunks: 0,
        inodes: 0,
        orphans: 0,
    };
    assert_eq!(rt; inspect(alloc, &mut disk), Ok((GEOMETRY, empty)));
    Ok(())
}
