ghost use Rattle.std.specs.Prelude.{IfOk};
ghost use Rattle.inode_cache.specs.Inodes.{IsIncore};

use inode_cache::{CLUSTER_INODES, Incore, NumberSet, begin_cache};
use inode_core::{Core, FORK_AT, read_core};
use life_bytes::Sector;
use life_ports::NoMemory;
use life_table::Listed;
use std::alloc::Global;
use std::test::Fail;

const UUID: [u8; 16] = [0, 1, 2, 3, 4, 5, 6, 7, 8, 9, 10, 11, 12, 13, 14, 15];

const EMPTY: Core = Core {
    live: true,
    links: 1,
    size: 0,
    blocks: 0,
    extents: 0,
    generation: 1,
    next: 0xffff_ffff,
};

/// The same with the blocks 32 to 34.
const THREE: Core = Core {
    size: 12_288,
    blocks: 3,
    extents: 1,
    ..EMPTY
};

fn empty_file(alloc: Global) -> Incore
    ensures { IsIncore result }
{
    Incore {
        core: EMPTY,
        blocks: Listed::new(alloc),
    }
}

fn three_blocks(alloc: Global) -> Result<Incore, NoMemory>
    ensures { IfOk result IsIncore }
{
    let blocks = Vec::from_slice(alloc, &[32, 33, 34])?;
    Ok(Incore {
        core: THREE,
        blocks: Listed::from_vec(blocks),
    })
}

#[test]
fn a_changed_inode_is_flushed(rt: HostRuntime) -> Result<(), Fail> {
    let mut cache = begin_cache(rt.alloc(), 0, UUID);
    let first = empty_file(rt.alloc());
    cache.reserve()?;
    cache.install(192, first.core, first.blocks)?;
    assert!(rt; cache.has(192));
    assert!(rt; !cache.has(193));
    assert!(rt; cache.clean(192));
    assert_eq!(rt; cache.get(192).core, EMPTY);
    let mut buffers = [Sector { bytes: [0xee; 512] }; CLUSTER_INODES as usize];
    let before = buffers;
    cache.flush_cluster(6, &mut buffers);
    assert!(rt; buffers == before);
    let second = three_blocks(rt.alloc())?;
    cache.change(192, second.core, second.blocks);
    assert!(rt; cache.has(192));
    assert!(rt; !cache.clean(192));
    cache.flush_cluster(7, &mut buffers);
    assert!(rt; buffers == before);
    cache.flush_cluster(6, &mut buffers);
    let written = buffers[0];
    assert_eq!(rt; read_core(&written, 192, &UUID), Some(THREE));
    assert_eq!(rt;
        &written.bytes[FORK_AT..FORK_AT + 16],
        b"\0\0\0\0\0\0\0\0\0\0\0\0\x04\0\0\x03".as_slice()
    );
    assert!(rt; buffers[1..] == before[1..]);
    assert!(rt; cache.has(192));
    assert!(rt; cache.clean(192));
    cache.reclaim(192);
    assert!(rt; !cache.has(192));
    Ok(())
}

#[test]
fn numbers_are_found_in_order(rt: HostRuntime) -> Result<(), Fail> {
    let mut set = NumberSet::new();
    assert_eq!(rt; set.first_from(0), None);
    for number in [192, 131_071, 255, 193] {
        set.insert(number);
    }
    assert_eq!(rt; set.first_from(0), Some(192));
    assert_eq!(rt; set.first_from(193), Some(193));
    assert_eq!(rt; set.first_from(194), Some(255));
    assert_eq!(rt; set.first_from(256), Some(131_071));
    set.remove(193);
    assert!(rt; !set.contains(193));
    assert_eq!(rt; set.first_from(193), Some(255));
    assert_eq!(rt; set.first_from(131_072), None);
    Ok(())
}
