ghost use Rattle.std.specs.Prelude.{◌≡◌, ◌<◌, IfOk, length};
ghost use Rattle.life_bytes.specs.Bits.{is_set};
ghost use Rattle.inode_core.specs.Cores.{IsCore};

use ag_header::{Agi, write_agi};
use disk_model::{Disk, DiskView, MemoryDisk};
use geometry::Geometry;
use image_rules::{CheckFault, Tables, check_groups};
use inobt_leaf::{ChunkRec, Leaf, write_page};
use inode_core::{Core, write_core};
use life_bytes::Sector;
use std::alloc::{AllocError, Global};
use std::test::Fail;

const UUID: [u8; 16] = [0, 1, 2, 3, 4, 5, 6, 7, 8, 9, 10, 11, 12, 13, 14, 15];

const IMAGE: Geometry = Geometry {
    version: 1,
    groups: 1,
    blocks: 64,
    ring: 256,
    uuid: UUID,
};

/// The header of a group without a chunk.
const EMPTY: Agi = Agi {
    group: 0,
    blocks: 64,
    count: 0,
    root: 2,
    level: 1,
    free: 0,
    heads: [0xffff_ffff; 64],
    uuid: UUID,
};

const FREE: Core = Core {
    live: false,
    links: 0,
    size: 0,
    blocks: 0,
    extents: 0,
    generation: 1,
    next: 0xffff_ffff,
};

const ORPHAN: Core = Core { live: true, ..FREE };

const LINKED: Core = Core {
    live: true,
    links: 1,
    ..FREE
};

/// What a group without a chunk holds.
const NOTHING: Tables = Tables {
    chunks: 0,
    inodes: 0,
    orphans: 0,
};

/// The sectors of a group without a chunk, all of whose data blocks are free.
fn empty_group(alloc: Global) -> Result<Vec<Sector>, AllocError>
    ensures { IfOk result (λ sectors. length sectors.items ≡ 769) }
{
    let mut sectors = vec![in alloc; Sector::zero(); 769]?;
    write_agi(&EMPTY, &mut sectors[2]);
    sectors[8].bytes[3..8].copy_from_slice(&[0xff; 5]);
    let mut page = [Sector::zero(); 8];
    write_page(&Leaf::new(alloc), 2, 0, 16, &UUID, &mut page);
    sectors[16..24].copy_from_slice(&page);
    Ok(sectors)
}

/// Whether an inode of a chunk is free, by the chunk's mask.
fn is_free(chunk: &ChunkRec, index: u32) -> bool
    requires { index < 64 }
    ensures { result ≡ is_set chunk.now.mask index }
{
    (chunk.mask >> index) & 1 == 1
}

/// Takes an inode of a leaf, where it is free.
fn take(leaf: &mut Leaf, agino: u32) {
    let Some(chunk) = leaf.find(agino) else {
        return;
    };
    if chunk.start <= agino && agino - chunk.start < 64 && is_free(&chunk, agino - chunk.start) {
        leaf.take(agino);
    }
}

/// The sector of an inode without blocks.
fn inode(core: &Core, number: u64) -> Sector
    requires { IsCore core.now }
{
    let mut sector = Sector::zero();
    write_core(core, number, &UUID, &mut sector);
    sector
}

/// A group with one chunk, of which inode 192 is in use with one link, and inode 193 without, as the one member of its bucket.
fn group_with_orphan(alloc: Global) -> Result<Vec<Sector>, AllocError>
    ensures { IfOk result (λ sectors. length sectors.items ≡ 769) }
{
    let mut sectors = empty_group(alloc)?;
    let mut header = EMPTY;
    header.count = 64;
    header.free = 62;
    header.heads[1] = 193;
    write_agi(&header, &mut sectors[2]);
    sectors[8].bytes[3] = 0;
    let mut leaf = Leaf::new(alloc);
    if leaf.find(192).is_some() || leaf.add(192).is_err() {
        return Err(AllocError);
    }
    take(&mut leaf, 192);
    take(&mut leaf, 193);
    let mut page = [Sector::zero(); 8];
    write_page(&leaf, 2, 0, 16, &UUID, &mut page);
    sectors[16..24].copy_from_slice(&page);
    for number in 192..256_u32 {
        sectors[number as usize] = inode(&FREE, u64::from(number));
    }
    sectors[192] = inode(&LINKED, 192);
    sectors[193] = inode(&ORPHAN, 193);
    Ok(sectors)
}

fn checked(alloc: Global, sectors: Vec<Sector>) -> Result<Tables, CheckFault> {
    let Ok(mut disk) = MemoryDisk::with(alloc, sectors) else {
        return Err(CheckFault::NoMemory);
    };
    if disk.sectors() < 769 {
        return Err(CheckFault::ReadFault);
    }
    check_groups(alloc, &mut DiskView::new(&mut disk), &IMAGE)
}

#[test]
fn empty_group_is_right_and_its_damages_are_named(rt: HostRuntime) -> Result<(), Fail> {
    let alloc = rt.alloc();
    assert_eq!(rt; checked(alloc, empty_group(alloc)?), Ok(NOTHING));
    for (at, rule, sector) in [(2, 5, 2), (20, 6, 16), (8, 10, 8), (11, 10, 11)] {
        let mut sectors = empty_group(alloc)?;
        sectors[at].bytes[5] ^= 1;
        assert_eq!(rt;
            checked(alloc, sectors),
            Err(CheckFault::Damaged { rule, sector }),
            "a bit of sector {at}"
        );
    }
    Ok(())
}

#[test]
fn orphan_is_in_its_list_and_damages_of_lists_are_named(rt: HostRuntime) -> Result<(), Fail> {
    let alloc = rt.alloc();
    let counted = Tables {
        chunks: 1,
        inodes: 2,
        orphans: 1,
    };
    assert_eq!(rt; checked(alloc, group_with_orphan(alloc)?), Ok(counted));

    // no bucket has the orphan
    let mut sectors = group_with_orphan(alloc)?;
    write_agi(
        &Agi {
            count: 64,
            free: 62,
            ..EMPTY
        },
        &mut sectors[2],
    );
    let unmet = CheckFault::Damaged {
        rule: 12,
        sector: 193,
    };
    assert_eq!(rt; checked(alloc, sectors), Err(unmet));

    // the list goes on to an inode with links, which points at the orphan
    let mut sectors = group_with_orphan(alloc)?;
    sectors[192] = inode(
        &Core {
            next: 193,
            ..LINKED
        },
        192,
    );
    let pointing = CheckFault::Damaged {
        rule: 12,
        sector: 192,
    };
    assert_eq!(rt; checked(alloc, sectors), Err(pointing));
    let mut sectors = group_with_orphan(alloc)?;
    sectors[193] = inode(
        &Core {
            next: 192,
            ..ORPHAN
        },
        193,
    );
    let wrong = CheckFault::Damaged {
        rule: 11,
        sector: 193,
    };
    assert_eq!(rt; checked(alloc, sectors), Err(wrong));
    Ok(())
}
