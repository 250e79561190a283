use crate::compare::{fill, stand_at};
use inode_core::{CORE_CRC_AT, Core, FORK_AT, read_core, write_core};
use life_bytes::Sector;
use std::process::Abort;

const UUID: [u8; 16] = [0, 1, 2, 3, 4, 5, 6, 7, 8, 9, 10, 11, 12, 13, 14, 15];

const FIRST: Core = Core {
    live: true,
    links: 1,
    size: 0,
    blocks: 0,
    extents: 0,
    generation: 1,
    next: 0xffff_ffff,
};

/// The sector of inode 192, the first file of an image of one group.
fn first_file() -> Sector {
    let mut sector = Sector::zero();
    sector.bytes[..6].copy_from_slice(b"IN\x81\xa4\x03\x02");
    sector.bytes[19] = 1;
    sector.bytes[95] = 1;
    sector.bytes[96..104].copy_from_slice(b"\xff\xff\xff\xff\x2d\x9c\x55\xa8");
    sector.bytes[159] = 192;
    sector.bytes[160..176].copy_from_slice(&UUID);
    sector
}

/// Inode 192 with another bit at one of these places is not read.
fn are_refused(rt: &impl Abort, sector: &Sector, places: &[usize]) {
    for at in places {
        assert!(rt; *at < 512);
        let mut other = *sector;
        other.bytes[*at] ^= 1;
        assert_eq!(rt; read_core(&other, 192, &UUID), None, "byte {at}");
    }
}

#[test]
fn first_file_is_read(rt: HostRuntime) {
    let sector = first_file();
    assert_eq!(rt; read_core(&sector, 192, &UUID), Some(FIRST));
    assert_eq!(rt; read_core(&sector, 193, &UUID), None);
    assert_eq!(rt; read_core(&sector, 192, &[0; 16]), None);
    are_refused(&rt, &sector, &[0, 3, 5, 8, 19, 60, 103, 112, 170, 200, 511]);
}

/// A sector of other bytes in which inode 192 was written.
fn written() -> Sector {
    let mut sector = Sector { bytes: [0xee; 512] };
    write_core(&FIRST, 192, &UUID, &mut sector);
    sector
}

#[test]
fn fork_stays_as_it_is(rt: HostRuntime) {
    let sector = written();
    stand_at(
        &rt,
        &sector.bytes,
        &[(0, &first_file().bytes[..CORE_CRC_AT])],
    );
    fill(&rt, &sector.bytes, &[(FORK_AT, 512, 0xee)]);
    assert_eq!(rt; read_core(&sector, 192, &UUID), Some(FIRST));
}

#[test]
fn free_inode_is_read(rt: HostRuntime) {
    let free = Core {
        live: false,
        links: 0,
        generation: 2,
        ..FIRST
    };
    let mut sector = Sector::zero();
    write_core(&free, 193, &UUID, &mut sector);
    assert_eq!(rt; &sector.bytes[2..4], [0, 0].as_slice());
    assert_eq!(rt; read_core(&sector, 193, &UUID), Some(free));
}
