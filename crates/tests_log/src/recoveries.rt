// Recovery over disks in memory, of one group of 64 blocks and a ring of 256 sectors.
ghost use Rattle.std.specs.Prelude.{◌≡◌, ◌≤◌, ◌+◌, ◌^◌, IfOk, length};
ghost use Rattle.geometry.specs.Shape.{IsGeometry};
ghost use Rattle.log_record.specs.Encoding.{IsRecord};

use disk_model::{Disk, FaultDisk, MemoryDisk, View};
use geometry::{Geometry, image_sectors};
use life_bytes::{Sector, put_u64};
use life_ports::NoMemory;
use log_image::{Anchor, read_anchor, write_anchor};
use log_record::{Image, ImageList, LogRecord, record_bytes};
use recovery::{Found, ReplayFault, ScanFault, Start, replay, scan};
use std::alloc::Global;
use std::test::Fail;

/// The anchor's sector.
const ANCHOR: usize = 512;

fn geometry() -> Geometry
    ensures { IsGeometry result }
{
    Geometry {
        version: 1,
        groups: 1,
        blocks: 64,
        ring: 256,
        uuid: [7; 16],
    }
}

fn image(home: u64, byte: u8) -> Image
    ensures { result.home ≡ home }
{
    Image {
        home,
        sector: Sector { bytes: [byte; 512] },
    }
}

/// A record of three images and two commits, of four sectors.
fn record_at(alloc: Global, position: u64, tail: u64, first: u64) -> Result<LogRecord, NoMemory>
    requires tail { tail ≤ position }
    requires end { position + 4 ≤ 2 ^ 64 }
    ensures { IfOk result IsRecord }
{
    let mut images = ImageList::new(alloc);
    images.push(image(16, 0xa1))?;
    images.push(image(17, 0xb2))?;
    images.push(image(40, 0xc3))?;
    Ok(LogRecord {
        position,
        tail,
        first,
        commits: 2,
        images,
    })
}

/// A cover, of one sector.
fn cover_at(alloc: Global, position: u64, first: u64) -> Result<LogRecord, NoMemory>
    requires { position + 1 ≤ 2 ^ 64 }
    ensures { IfOk result IsRecord }
{
    Ok(LogRecord {
        position,
        tail: position,
        first,
        commits: 0,
        images: ImageList::new(alloc),
    })
}

/// An image with this anchor and a ring of zero bytes.
fn image_with(alloc: Global, position: u64, next_commit: u64) -> Result<Vec<Sector>, NoMemory>
    ensures { IfOk result (λ image. length image.items ≡ 769) }
{
    let mut image = vec![in alloc; Sector::zero(); ANCHOR + 257]?;
    let anchor = Anchor {
        position,
        next_commit,
    };
    write_anchor(&anchor, &mut image[ANCHOR]);
    Ok(image)
}

/// Puts so many first sectors of a record into their places in the ring.
fn put(image: &mut Vec<Sector>, alloc: Global, item: &LogRecord, count: usize) -> Result<(), Fail>
    requires { IsRecord item.now }
{
    let sectors = record_bytes(alloc, item)?;
    for (i, sector) in sectors.iter().take(count).enumerate() {
        let at = ANCHOR + 1 + (item.position.wrapping_add(i as u64) % 256) as usize;
        if at < image.len() {
            image[at] = *sector;
        }
    }
    Ok(())
}

fn scanned<D: Disk>(alloc: Global, disk: &mut D) -> Result<Result<Found, ScanFault>, Fail> {
    let g = geometry();
    if disk.sectors() < image_sectors(&g) {
        return Err("too small".into());
    }
    Ok(scan(alloc, disk, &g))
}

/// What is found of an image.
fn found_in(alloc: Global, image: Vec<Sector>) -> Result<Result<Found, ScanFault>, Fail> {
    let mut disk = MemoryDisk::with(alloc, image)?;
    scanned(alloc, &mut disk)
}

/// Recovers a disk as a mount does: with a flush between the scan and the replay.
fn recovered<D: Disk>(
    alloc: Global,
    disk: &mut D,
) -> Result<(Found, Result<Start, ReplayFault>), Fail> {
    let g = geometry();
    if disk.sectors() < image_sectors(&g) {
        return Err("too small".into());
    }
    let Ok(found) = scan(alloc, disk, &g) else {
        return Err("damaged".into());
    };
    let Ok(()) = disk.flush() else {
        return Err("flush".into());
    };
    let start = replay(disk, &g, &found);
    Ok((found, start))
}

#[test]
fn logs_without_images_are_found(rt: HostRuntime) -> Result<(), Fail> {
    let alloc = rt.alloc();
    let Ok(found) = found_in(alloc, image_with(alloc, 256, 1)?)? else {
        return Err("damaged".into());
    };
    assert_eq!(rt; (found.tail, found.end, found.next_commit), (256, 256, 1));
    assert!(rt; found.images.get(16).is_none());

    let mut image = image_with(alloc, 512, 1)?;
    put(&mut image, alloc, &record_at(alloc, 512, 512, 1)?, 4)?;
    put(&mut image, alloc, &cover_at(alloc, 583, 3)?, 1)?;
    let Ok(found) = found_in(alloc, image)? else {
        return Err("damaged".into());
    };
    assert_eq!(rt; (found.tail, found.end, found.next_commit), (583, 584, 3));
    assert!(rt; found.images.get(16).is_none());
    Ok(())
}

#[test]
fn a_torn_record_is_passed_over(rt: HostRuntime) -> Result<(), Fail> {
    let alloc = rt.alloc();
    for (count, end, next) in [(3, 260, 3), (4, 264, 5)] {
        let mut image = image_with(alloc, 256, 1)?;
        put(&mut image, alloc, &record_at(alloc, 256, 256, 1)?, 4)?;
        put(&mut image, alloc, &record_at(alloc, 260, 256, 3)?, count)?;
        let Ok(found) = found_in(alloc, image)? else {
            return Err("damaged".into());
        };
        assert_eq!(rt;
            (found.tail, found.end, found.next_commit),
            (256, end, next)
        );
        let newest = found.images.get(17).ok_or("no image")?;
        assert_eq!(rt; newest.bytes[0], 0xb2);
    }
    Ok(())
}

#[test]
fn damage_is_named(rt: HostRuntime) -> Result<(), Fail> {
    let alloc = rt.alloc();
    let damaged = |rule, sector| Some(ScanFault::Damaged { rule, sector });
    // The anchor: none, a position within the first turn, commit number 0.
    let mut image = image_with(alloc, 256, 1)?;
    image[ANCHOR] = Sector::zero();
    assert_eq!(rt; found_in(alloc, image)?.err(), damaged(3, 512));
    assert_eq!(rt;
        found_in(alloc, image_with(alloc, 255, 1)?)?.err(),
        damaged(3, 512)
    );
    assert_eq!(rt;
        found_in(alloc, image_with(alloc, 256, 0)?)?.err(),
        damaged(3, 512)
    );
    // Where the last record's tail is no record is.
    let mut image = image_with(alloc, 256, 1)?;
    put(&mut image, alloc, &record_at(alloc, 262, 260, 1)?, 4)?;
    assert_eq!(rt; found_in(alloc, image)?.err(), damaged(4, 519));
    // A sector from beyond 266 + 256, in front of that record and behind it, and the last position that is right.
    for (place, position, sector) in [(3, 522, 516), (20, 522, 519), (3, 521, 519)] {
        let mut image = image_with(alloc, 256, 1)?;
        put(&mut image, alloc, &record_at(alloc, 262, 260, 1)?, 4)?;
        let high = image.get_mut(ANCHOR + 1 + place).ok_or("no sector")?;
        put_u64(&mut high.bytes, 0, position);
        assert_eq!(rt;
            found_in(alloc, image)?.err(),
            damaged(4, sector),
            "place {place}"
        );
    }
    Ok(())
}

#[test]
fn a_record_round_the_end_of_the_ring_is_brought_home(rt: HostRuntime) -> Result<(), Fail> {
    let alloc = rt.alloc();
    let mut image = image_with(alloc, 510, 7)?;
    put(&mut image, alloc, &record_at(alloc, 510, 510, 7)?, 4)?;
    let mut disk = MemoryDisk::with(alloc, image)?;
    let (found, start) = recovered(alloc, &mut disk)?;
    assert_eq!(rt; (found.tail, found.end, found.next_commit), (510, 514, 9));
    assert_eq!(rt;
        start,
        Ok(Start {
            position: 770,
            next_commit: 9
        })
    );
    let mut sector = Sector::zero();
    for (at, byte) in [(16, 0xa1), (17, 0xb2), (40, 0xc3), (18, 0)] {
        if at < disk.sectors() {
            let _ = disk.read(at, &mut sector);
        }
        assert_eq!(rt; sector.bytes, [byte; 512], "sector {at}");
    }
    let anchor = ANCHOR as u64;
    if anchor < disk.sectors() {
        let _ = disk.read(anchor, &mut sector);
    }
    assert_eq!(rt;
        read_anchor(&sector),
        Some(Anchor {
            position: 770,
            next_commit: 9
        })
    );
    Ok(())
}

#[test]
fn a_disk_reads_as_its_log_leaves_it(rt: HostRuntime) -> Result<(), Fail> {
    let alloc = rt.alloc();
    let mut image = image_with(alloc, 256, 1)?;
    put(&mut image, alloc, &record_at(alloc, 256, 256, 1)?, 4)?;
    let mut disk = MemoryDisk::with(alloc, image)?;
    let Ok(found) = scanned(alloc, &mut disk)? else {
        return Err("damaged".into());
    };
    let mut view = found.overlay(&mut disk);
    let mut sector = Sector::zero();
    for (at, byte) in [(16, 0xa1), (40, 0xc3), (41, 0)] {
        if at < view.sectors() {
            let _ = view.read(at, &mut sector);
        }
        assert_eq!(rt; sector.bytes, [byte; 512], "sector {at}");
    }
    Ok(())
}

#[test]
fn each_call_of_the_disk_fails_once(rt: HostRuntime) -> Result<(), Fail> {
    let alloc = rt.alloc();
    // A scan is 257 reads, and then come the mount's flush, three homes, a flush, the anchor, a flush.
    let wants = [
        (259, Err(ReplayFault::WriteFault)),
        (261, Err(ReplayFault::WriteFault)),
        (262, Err(ReplayFault::FlushFault)),
        (263, Err(ReplayFault::WriteFault)),
        (264, Err(ReplayFault::FlushFault)),
        (
            265,
            Ok(Start {
                position: 516,
                next_commit: 3,
            }),
        ),
    ];
    for (call, want) in wants {
        let mut image = image_with(alloc, 256, 1)?;
        put(&mut image, alloc, &record_at(alloc, 256, 256, 1)?, 4)?;
        let fails = vec![in alloc; call]?;
        let mut disk = FaultDisk::new(MemoryDisk::with(alloc, image)?, fails);
        let (_, start) = recovered(alloc, &mut disk)?;
        assert_eq!(rt; start, want, "call {call}");
    }
    Ok(())
}
