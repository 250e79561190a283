// Worked rows of mounts.
ghost use Rattle.std.specs.Prelude.{◌≤◌};

use crate::disks::{have_same_groups, sectors_of};
use disk_model::{MemoryDisk, StopDisk, Stops};
use life_bytes::{Sector, put_u32, put_u64};
use mount::{MountFault, NotMounted, mount, unmount};
use sample_images::{ANCHOR, File, Group, NO_INODE, image_of, put};
use std::alloc::Global;
use std::test::Fail;

/// One inode without links.
const TEMPORARY: [File; 1] = [File {
    agino: 192,
    generation: 1,
    links: 0,
    next: NO_INODE,
    first: 0,
    blocks: 0,
}];

/// A group without a chunk.
fn empty() -> Group<'static> {
    Group {
        chunks: &[],
        files: &[],
        freed: &[],
        heads: &[],
    }
}

/// What a mount of an image without files answers, whose log begins at this position with this commit number: whether it came up.
fn comes_up(alloc: Global, position: u64, number: u64) -> Result<Result<u64, MountFault>, Fail> {
    let group = empty();
    let image = image_of(alloc, [&group, &group], position, number)?;
    let disk = MemoryDisk::with(alloc, image)?;
    match mount(alloc, disk) {
        Ok(mounted) => Ok(Ok(mounted.story.base)),
        Err(NotMounted { fault, begun, .. }) => {
            if begun.is_some() {
                return Err("begun".into());
            }
            Ok(Err(fault))
        }
    }
}

#[test]
fn positions_are_used_up_at_their_limit(rt: HostRuntime) -> Result<(), Fail> {
    let alloc = rt.alloc();
    let limit = 1 << 62;
    let rows = [
        (limit, 1, Err(MountFault::PositionEnd)),
        (limit - 256, 1, Err(MountFault::PositionEnd)),
        (limit - 257, 1, Ok(1)),
        (256, limit, Err(MountFault::PositionEnd)),
        (256, limit - 1, Ok(limit - 1)),
    ];
    for (position, number, want) in rows {
        assert_eq!(rt;
            comes_up(alloc, position, number)?,
            want,
            "position {position}, number {number}"
        );
    }
    Ok(())
}

/// The sectors of the groups that differ, as the second image has them, each with its place.
fn differences(
    alloc: Global,
    before: &[Sector],
    after: &[Sector],
) -> Result<Vec<(u64, Sector)>, Fail> {
    let mut found = Vec::new(alloc);
    for (at, (old, new)) in before.iter().zip(after).take(ANCHOR).enumerate() {
        if old != new {
            found.push((at as u64, *new))?;
        }
    }
    Ok(found)
}

/// How many images there are, up to as many as a record may have.
fn count(images: &[(u64, Sector)]) -> u32 {
    images.len().min(128) as u32
}

/// How many sectors a record with so many images has.
fn sectors_for(images: u32) -> u32 {
    images.wrapping_mul(520).wrapping_add(32).div_ceil(496)
}

/// The first record of a log that begins at position 256, with one commit of number 1 that has these images: what its sectors have behind their two positions.
fn payload(alloc: Global, images: &[(u64, Sector)]) -> Result<Vec<u8>, Fail> {
    let mut bytes = vec![in alloc; 0_u8; 66_960]?;
    put_u64(&mut bytes, 0, 256);
    put_u64(&mut bytes, 8, 1);
    put_u32(&mut bytes, 16, 1);
    put_u32(&mut bytes, 20, count(images));
    put_u32(&mut bytes, 24, sectors_for(count(images)));
    for (i, (home, sector)) in images.iter().take(128).enumerate() {
        let at = 32 + 520 * i;
        if at + 520 <= bytes.len() {
            put_u64(&mut bytes, at, *home);
            bytes[at + 8..at + 520].copy_from_slice(&sector.bytes);
        }
    }
    Ok(bytes)
}

/// Writes that record into the ring.
fn log(alloc: Global, image: &mut Vec<Sector>, images: &[(u64, Sector)]) -> Result<(), Fail> {
    let bytes = payload(alloc, images)?;
    for (k, piece) in bytes.chunks_exact(496).enumerate() {
        if (k as u64) < u64::from(sectors_for(count(images))) {
            let mut sector = Sector::zero();
            put_u64(&mut sector.bytes, 0, (k as u64).wrapping_add(256));
            put_u64(&mut sector.bytes, 8, 256);
            sector.bytes[16..].copy_from_slice(piece);
            put(image, (ANCHOR + 1).wrapping_add(k), &sector);
        }
    }
    Ok(())
}

/// The image of two groups without a chunk.
fn without_inodes(alloc: Global) -> Result<Vec<Sector>, Fail> {
    let group = empty();
    Ok(image_of(alloc, [&group, &group], 256, 1)?)
}

/// The same with a chunk in group 0, whose first inode has no links.
fn with_inode(alloc: Global) -> Result<Vec<Sector>, Fail> {
    let first = Group {
        chunks: &[192],
        files: &TEMPORARY,
        freed: &[],
        heads: &[(0, 192)],
    };
    let second = Group {
        chunks: &[],
        files: &[],
        freed: &[],
        heads: &[],
    };
    Ok(image_of(alloc, [&first, &second], 256, 1)?)
}

/// The same where that inode is free again, in its second life.
fn with_free_inode(alloc: Global) -> Result<Vec<Sector>, Fail> {
    let first = Group {
        chunks: &[192],
        files: &[],
        freed: &[(192, 2)],
        heads: &[],
    };
    let second = Group {
        chunks: &[],
        files: &[],
        freed: &[],
        heads: &[],
    };
    Ok(image_of(alloc, [&first, &second], 256, 1)?)
}

/// A disk whose log makes one inode without links, 192 in group 0: a header, a bitmap, a page and 64 inodes are in its one record.
fn with_temporary_file(alloc: Global) -> Result<MemoryDisk, Fail> {
    let mut image = without_inodes(alloc)?;
    let after = with_inode(alloc)?;
    let images = differences(alloc, &image, &after)?;
    if images.len() != 67 {
        return Err("not 67 images".into());
    }
    log(alloc, &mut image, &images)?;
    Ok(MemoryDisk::with(alloc, image)?)
}

/// Whether a disk's groups are those in which the inode is free again, in its second life.
fn is_freed(alloc: Global, mut disk: MemoryDisk) -> Result<bool, Fail> {
    let want = with_free_inode(alloc)?;
    let found = sectors_of(alloc, &mut disk)?;
    Ok(have_same_groups(&found, &want))
}

/// A mount that stops within a write, after so many of its sectors: the disk, and how many frees had begun, where any.
fn stopped(
    alloc: Global,
    disk: MemoryDisk,
    write: u64,
    sectors: u64,
) -> Result<(MemoryDisk, Option<u64>), Fail>
    requires { 1 ≤ write }
{
    let mut disk = StopDisk::new(disk);
    disk.arm(write, sectors);
    let Err(
        NotMounted {
            mut disk,
            begun,
            ..
        },
    ) = mount(alloc, disk)
    else {
        return Err("not stopped".into());
    };
    disk.restart();
    Ok((disk.inner(), begun.map(|story| story.freed)))
}

#[test]
fn stops_during_recovery(rt: HostRuntime) -> Result<(), Fail> {
    let alloc = rt.alloc();
    let (disk, begun) = stopped(alloc, with_temporary_file(alloc)?, 1, 0)?;
    assert_eq!(rt; begun, None);
    // 67 home writes and the anchor come before the record of the free.
    let (disk, begun) = stopped(alloc, disk, 69, 2)?;
    assert_eq!(rt; begun, Some(1));
    let Ok(mounted) = mount(alloc, disk) else {
        return Err("not mounted".into());
    };
    assert_eq!(rt; (mounted.story.base, mounted.story.freed), (2, 1));
    let Ok(mounted) = mount(alloc, mounted.store.into_disk()) else {
        return Err("not mounted".into());
    };
    assert_eq!(rt; (mounted.story.base, mounted.story.freed), (3, 0));
    let Ok(disk) = unmount(mounted) else {
        return Err("still mounted".into());
    };
    assert!(rt; is_freed(alloc, disk)?);
    Ok(())
}

#[test]
fn an_image_without_files_stays(rt: HostRuntime) -> Result<(), Fail> {
    let alloc = rt.alloc();
    let image = without_inodes(alloc)?;
    let Ok(mounted) = mount(alloc, MemoryDisk::with(alloc, image)?) else {
        return Err("not mounted".into());
    };
    assert_eq!(rt; (mounted.story.base, mounted.story.freed), (1, 0));
    let Ok(mut disk) = unmount(mounted) else {
        return Err("still mounted".into());
    };
    let want = without_inodes(alloc)?;
    let found = sectors_of(alloc, &mut disk)?;
    assert!(rt; have_same_groups(&found, &want));
    Ok(())
}
