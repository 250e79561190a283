use crate::compare::{fill, stand_at};
use ag_header::{AGI_CRC_AT, Agi, read_agi, set_counts, set_head, set_root, write_agi};
use life_bytes::Sector;
use std::process::Abort;

const EMPTY: u32 = 0xffff_ffff;

/// The header of a group of 64 blocks with one chunk and one inode in use.
const FIRST: Agi = Agi {
    group: 0,
    blocks: 64,
    count: 64,
    root: 2,
    level: 1,
    free: 63,
    heads: [EMPTY; 64],
    uuid: [0, 1, 2, 3, 4, 5, 6, 7, 8, 9, 10, 11, 12, 13, 14, 15],
};

/// The header, written over other bytes.
fn written() -> Sector {
    let mut sector = Sector { bytes: [0xee; 512] };
    write_agi(&FIRST, &mut sector);
    sector
}

#[test]
fn header_is_written(rt: HostRuntime) {
    let sector = written();
    stand_at(
        &rt,
        &sector.bytes,
        &[
            (0, b"XAGI\0\0\0\x01\0\0\0\0\0\0\0\x40\0\0\0\x40"),
            (20, b"\0\0\0\x02\0\0\0\x01\0\0\0\x3f"),
            (296, &FIRST.uuid),
            (AGI_CRC_AT, b"\x69\xf4\x24\x78"),
        ],
    );
    fill(
        &rt,
        &sector.bytes,
        &[(32, 296, 0xff), (AGI_CRC_AT + 4, 512, 0)],
    );
}

/// The header with another bit at one of these places is not read.
fn are_refused(rt: &impl Abort, sector: &Sector, places: &[usize]) {
    for at in places {
        assert!(rt; *at < 512);
        let mut other = *sector;
        other.bytes[*at] ^= 1;
        assert_eq!(rt; read_agi(&other), None, "byte {at}");
    }
}

#[test]
fn header_is_read_and_nothing_else(rt: HostRuntime) {
    let sector = written();
    assert_eq!(rt; read_agi(&sector), Some(FIRST));
    are_refused(&rt, &sector, &[3, 7, 23, 27, 35, 100, 300, 315, 320, 511]);
}

#[test]
fn one_field_is_set(rt: HostRuntime) {
    let mut sector = Sector::zero();
    write_agi(&FIRST, &mut sector);
    set_head(&mut sector, 63, 255);
    set_counts(&mut sector, 128, 127);
    set_root(&mut sector, 17, 1);
    let mut wanted = FIRST;
    wanted.heads[63] = 255;
    wanted.count = 128;
    wanted.free = 127;
    wanted.root = 17;
    assert_eq!(rt; read_agi(&sector), Some(wanted));
}
