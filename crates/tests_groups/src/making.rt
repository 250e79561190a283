// Images over disks in memory, with the bytes that the format says.
ghost use Rattle.std.specs.Prelude.{◌≡◌, IfOk, length, replicate};
ghost use Rattle.life_bytes.specs.Sectors.{zero_sector};
ghost use Rattle.disk_model.specs.Disk.{settled_as};
ghost use Rattle.disk_model.specs.MemoryDisk.{cells_of};

use ag_header::AGI_CRC_AT;
use disk_model::{Disk, FaultDisk, MemoryDisk};
use geometry::{Geometry, SUPERBLOCK_CRC_AT};
use image_make::{MakeFault, make};
use inobt_leaf::LEAF_CRC_AT;
use life_bytes::{Sector, put_bytes, put_u8};
use std::alloc::Global;
use std::test::Fail;

const UUID: [u8; 16] = [0, 1, 2, 3, 4, 5, 6, 7, 8, 9, 10, 11, 12, 13, 14, 15];

/// Two groups of 64 blocks.
const TWO: Geometry = Geometry {
    version: 1,
    groups: 2,
    blocks: 64,
    ring: 256,
    uuid: UUID,
};

/// The header of a group, with its checksum.
fn header(group: u8, checksum: &[u8; 4]) -> Sector {
    let mut sector = Sector { bytes: [0; 512] };
    put_bytes(&mut sector.bytes, 0, b"XAGI\0\0\0\x01\0\0\0");
    put_u8(&mut sector.bytes, 11, group);
    put_bytes(
        &mut sector.bytes,
        12,
        b"\0\0\0\x40\0\0\0\0\0\0\0\x02\0\0\0\x01\0\0\0\0",
    );
    put_bytes(&mut sector.bytes, 32, &[0xff; 264]);
    put_bytes(&mut sector.bytes, 296, &UUID);
    put_bytes(&mut sector.bytes, AGI_CRC_AT, checksum);
    sector
}

/// The first sector of a group's page, which begins at this sector of the image.
fn page(group: u8, at: &[u8; 2], checksum: &[u8; 4]) -> Sector {
    let mut sector = Sector { bytes: [0; 512] };
    put_bytes(
        &mut sector.bytes,
        0,
        b"IAB3\0\0\0\0\xff\xff\xff\xff\xff\xff\xff\xff",
    );
    put_bytes(&mut sector.bytes, 22, at);
    put_bytes(&mut sector.bytes, 32, &UUID);
    put_u8(&mut sector.bytes, 51, group);
    put_bytes(&mut sector.bytes, LEAF_CRC_AT, checksum);
    sector
}

/// The superblock.
fn superblock() -> Sector {
    let mut sector = Sector { bytes: [0; 512] };
    put_bytes(
        &mut sector.bytes,
        0,
        b"LIFE\0\0\0\x01\0\0\0\x02\0\0\0\x40\0\0\x01\0",
    );
    put_bytes(&mut sector.bytes, 24, &UUID);
    put_bytes(&mut sector.bytes, SUPERBLOCK_CRC_AT, b"\xe4\xe2\x95\x27");
    sector
}

/// A bitmap's first sector, in which blocks 24 to 63 are free.
fn bitmap() -> Sector {
    let mut sector = Sector { bytes: [0; 512] };
    put_bytes(&mut sector.bytes, 3, &[0xff; 5]);
    sector
}

fn anchor() -> Sector {
    let mut sector = Sector { bytes: [0; 512] };
    put_bytes(
        &mut sector.bytes,
        0,
        b"ANCH\x8a\x2b\xdb\xb8\0\0\0\0\0\0\x01\0\0\0\0\0\0\0\0\x01",
    );
    sector
}

/// What stands at a sector of the image of two groups.
fn wanted(at: u64) -> Sector {
    match at {
        0 => superblock(),
        2 => header(0, b"\xa1\xb6\x2f\x1c"),
        514 => header(1, b"\x10\xa0\xdb\x6a"),
        8 | 520 => bitmap(),
        16 => page(0, b"\0\x10", b"\xcd\x5b\xf0\xf0"),
        528 => page(1, b"\x02\x10", b"\x61\x2a\x41\xa6"),
        1024 => anchor(),
        _ => Sector { bytes: [0; 512] },
    }
}

/// A disk of zero bytes with a few sectors more than the image of two groups.
fn blank(alloc: Global) -> Result<MemoryDisk, Fail>
    ensures blank { IfOk result (λ disk. cells_of disk ≡ settled_as (replicate (length (cells_of disk)) zero_sector)) }
    ensures sectors { IfOk result (λ disk. length (cells_of disk) ≡ 1290) }
{
    Ok(MemoryDisk::new(alloc, 1290)?)
}

#[test]
fn each_sector_is_as_the_format_says(rt: HostRuntime) -> Result<(), Fail> {
    let mut disk = blank(rt.alloc())?;
    assert_eq!(rt; make(&TWO, &mut disk), Ok(()));
    for at in 0..disk.sectors() {
        assert_eq!(rt; disk.sector(at), wanted(at), "sector {at}");
    }
    Ok(())
}

/// Whether each sector is as it is wanted.
fn is_made(disk: &MemoryDisk) -> bool {
    for at in 0..disk.sectors() {
        if disk.sector(at) != wanted(at) {
            return false;
        }
    }
    true
}

/// Makes the image on a disk that fails at this call, and gives the answer, and what a stop with this choice leaves.
fn make_until(
    alloc: Global,
    call: u64,
    choice: u64,
) -> Result<(Result<(), MakeFault>, MemoryDisk), Fail> {
    let mut fails = Vec::new(alloc);
    fails.push(call)?;
    let mut disk = FaultDisk::new(blank(alloc)?, fails);
    let result = make(&TWO, &mut disk);
    let mut left = disk.into_inner();
    left.pick(choice);
    Ok((result, left))
}

#[test]
fn a_stop_leaves_no_superblock_or_the_whole_image(rt: HostRuntime) -> Result<(), Fail> {
    let rows = [
        (1, Err(MakeFault::WriteFault)),
        (2, Err(MakeFault::WriteFault)),
        (3, Err(MakeFault::WriteFault)),
        (4, Err(MakeFault::FlushFault)),
        (5, Err(MakeFault::WriteFault)),
        (6, Err(MakeFault::FlushFault)),
        (7, Ok(())),
    ];
    for (call, answer) in rows {
        for choice in [0, 1, 0x5555_5555_5555_5555, u64::MAX] {
            let (result, left) = make_until(rt.alloc(), call, choice)?;
            assert_eq!(rt; result, answer, "call {call}");
            assert!(rt; left.sectors() > 0);
            let whole = is_made(&left);
            let blank = left.sector(0) == Sector { bytes: [0; 512] };
            // The superblock is written by the fifth call, and flushed by the sixth.
            assert_eq!(rt;
                whole,
                call == 7 || (call == 6 && choice % 2 == 1),
                "call {call}, choice {choice}"
            );
            assert_eq!(rt; blank, !whole, "call {call}, choice {choice}");
        }
    }
    Ok(())
}
