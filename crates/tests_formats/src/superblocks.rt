use crate::compare::{fill, stand_at};
use geometry::{
    Damaged, Geometry, SUPERBLOCK_CRC_AT, image_sectors, number, read_super, sector_of, split,
    word_at, write_super,
};
use life_bytes::Sector;
use std::process::Abort;

const ONE_GROUP: Geometry = Geometry {
    version: 1,
    groups: 1,
    blocks: 64,
    ring: 256,
    uuid: [0, 1, 2, 3, 4, 5, 6, 7, 8, 9, 10, 11, 12, 13, 14, 15],
};

#[test]
fn numbers_and_places(rt: HostRuntime) {
    assert_eq!(rt; number(1, 192), 131_264);
    assert_eq!(rt; split(131_264), (1, 192));
    let g = Geometry {
        version: 1,
        groups: 2,
        blocks: 64,
        ring: 256,
        uuid: [7; 16],
    };
    assert_eq!(rt; image_sectors(&g), 1281);
    assert_eq!(rt; sector_of(&g, 131_264), 704);
    assert_eq!(rt; word_at(&g, 131_264), 704);
}

/// The superblock, written over other bytes.
fn written() -> Sector {
    let mut sector = Sector { bytes: [0xee; 512] };
    write_super(&ONE_GROUP, &mut sector);
    sector
}

#[test]
fn superblock_is_written(rt: HostRuntime) {
    let sector = written();
    stand_at(
        &rt,
        &sector.bytes,
        &[
            (0, b"LIFE\0\0\0\x01\0\0\0\x01\0\0\0\x40\0\0\x01\0\0\0\0\0"),
            (24, &ONE_GROUP.uuid),
            (SUPERBLOCK_CRC_AT, b"\x37\xd9\x89\xbc"),
        ],
    );
    fill(&rt, &sector.bytes, &[(SUPERBLOCK_CRC_AT + 4, 512, 0)]);
}

/// The superblock with another bit at one of these places is damaged.
fn are_damaged(rt: &impl Abort, sector: &Sector, places: &[usize]) {
    for at in places {
        assert!(rt; *at < 512);
        let mut other = *sector;
        other.bytes[*at] ^= 1;
        assert_eq!(rt;
            read_super(&other),
            Err(Damaged { rule: 1, sector: 0 }),
            "byte {at}"
        );
    }
}

#[test]
fn superblock_is_read_and_nothing_else(rt: HostRuntime) {
    let sector = written();
    assert_eq!(rt; read_super(&sector), Ok(ONE_GROUP));
    are_damaged(&rt, &sector, &[0, 7, 19, 20, 30, 42, 511]);
}
