// The edges of the fields of the formats: of each the last values that are taken, and the first that are refused. Checksums are right.
use ag_header::{AGI_CRC_AT, read_agi};
use extent_fork::read_fork;
use geometry::{SUPERBLOCK_CRC_AT, read_super};
use inobt_leaf::{LEAF_CRC_AT, LEAF_RECORDS_AT, read_page};
use inode_core::{CORE_CRC_AT, FORK_AT, read_core};
use life_bytes::{Sector, put_bytes, put_crc, put_u16, put_u32, put_u64};
use std::alloc::Global;
use std::process::Abort;

const UUID: [u8; 16] = [0, 1, 2, 3, 4, 5, 6, 7, 8, 9, 10, 11, 12, 13, 14, 15];

const NONE: u32 = 0xffff_ffff;

/// Four bytes that are set: their place, and their big-endian number.
type Word = (usize, u32);

fn set(bytes: &mut [u8], words: &[Word]) {
    for (at, value) in words {
        if *at < bytes.len() && bytes.len() - *at >= 4 {
            put_u32(bytes, *at, *value);
        }
    }
}

/// The superblock of one group of 64 blocks and a ring of 256 sectors, with these words.
fn superblock_with(words: &[Word]) -> Sector {
    let mut sector = Sector::zero();
    put_bytes(
        &mut sector.bytes,
        0,
        b"LIFE\0\0\0\x01\0\0\0\x01\0\0\0\x40\0\0\x01\0",
    );
    put_bytes(&mut sector.bytes, 24, &UUID);
    set(&mut sector.bytes, words);
    put_crc(&mut sector.bytes, SUPERBLOCK_CRC_AT);
    sector
}

/// A superblock with these words is taken, or refused.
fn compare_superblocks(rt: &impl Abort, rows: &[(&[Word], bool)]) {
    for (words, taken) in rows {
        let found = read_super(&superblock_with(words));
        assert_eq!(rt; found.is_ok(), *taken, "{words:?}");
    }
}

#[test]
fn edges_of_superblocks(rt: HostRuntime) {
    compare_superblocks(
        &rt,
        &[
            (&[(4, 0)], false),
            (&[(4, 1)], true),
            (&[(4, 2)], false),
            (&[(8, 0)], false),
            (&[(8, 1)], true),
            (&[(8, 16)], true),
            (&[(8, 17)], false),
            (&[(12, 63)], false),
            (&[(12, 64)], true),
            (&[(12, 16_384)], true),
            (&[(12, 16_385)], false),
            (&[(16, 255)], false),
            (&[(16, 256)], true),
            (&[(16, 65_536)], true),
            (&[(16, 65_537)], false),
            (&[(20, 1)], false),
        ],
    )
}

/// The header of a group without a chunk, with these words.
fn header_with(words: &[Word]) -> Sector {
    let mut sector = Sector::zero();
    put_bytes(&mut sector.bytes, 0, b"XAGI\0\0\0\x01\0\0\0\0\0\0\0\x40");
    set(&mut sector.bytes, &[(20, 2), (24, 1)]);
    put_bytes(&mut sector.bytes, 32, &[0xff; 264]);
    put_bytes(&mut sector.bytes, 296, &UUID);
    set(&mut sector.bytes, words);
    put_crc(&mut sector.bytes, AGI_CRC_AT);
    sector
}

/// A header with these words is taken, or refused.
fn compare_headers(rt: &impl Abort, rows: &[(&[Word], bool)]) {
    for (words, taken) in rows {
        let found = read_agi(&header_with(words));
        assert_eq!(rt; found.is_some(), *taken, "{words:?}");
    }
}

#[test]
fn edges_of_headers(rt: HostRuntime) {
    compare_headers(
        &rt,
        &[
            (&[(4, 0)], false),
            (&[(4, 2)], false),
            (&[(8, 0), (12, 0), (16, 0), (28, 0)], true),
            (&[(8, NONE), (12, NONE), (16, NONE), (28, NONE)], true),
            (&[(20, 1)], false),
            (&[(20, 2)], true),
            (&[(20, 17)], true),
            (&[(20, 18)], false),
            (&[(24, 0)], false),
            (&[(24, 1)], true),
            (&[(24, 2)], false),
            (&[(32, NONE - 1)], false),
            (&[(36, NONE - 1)], false),
            (&[(40, 0), (292, 0)], true),
            (&[(316, 1)], false),
        ],
    )
}

/// Inode 192, free in its first life, with these words.
fn inode_with(words: &[Word]) -> Sector {
    let mut sector = Sector::zero();
    put_bytes(&mut sector.bytes, 0, b"IN\0\0\x03\x02");
    set(&mut sector.bytes, &[(92, 1), (96, NONE), (156, 192)]);
    put_bytes(&mut sector.bytes, 160, &UUID);
    set(&mut sector.bytes, words);
    put_crc(&mut sector.bytes, CORE_CRC_AT);
    sector
}

/// Inode 192 with these words is taken, or refused.
fn compare_inodes(rt: &impl Abort, rows: &[(&[Word], bool)]) {
    for (words, taken) in rows {
        let found = read_core(&inode_with(words), 192, &UUID);
        assert_eq!(rt; found.is_some(), *taken, "{words:?}");
    }
}

/// The magic and the mode of an inode in use.
const LIVE: Word = (0, 0x494e_81a4);

#[test]
fn edges_of_inodes_in_use(rt: HostRuntime) {
    compare_inodes(
        &rt,
        &[
            (&[LIVE], true),
            (&[(0, 0x494e_81a3)], false),
            (&[(0, 0x494e_81a5)], false),
            (&[LIVE, (4, 0x0402_0000)], false),
            (&[LIVE, (16, 0x7fff_ffff)], true),
            (&[LIVE, (16, 0x8000_0000)], false),
            (&[LIVE, (68, NONE), (56, 0xfff), (60, 0xffff_f000)], true),
            (&[LIVE, (64, 1), (56, 0x1000)], false),
            (&[LIVE, (68, 1), (60, 4095)], false),
            (&[LIVE, (68, 1), (60, 4097)], false),
            (&[LIVE, (76, 21)], true),
            (&[LIVE, (76, 22)], false),
            (&[LIVE, (92, 0)], false),
            (&[LIVE, (92, NONE - 1)], true),
            (&[LIVE, (92, NONE)], false),
            (&[LIVE, (96, 0)], true),
            (&[LIVE, (156, 191)], false),
            (&[LIVE, (156, 193)], false),
        ],
    )
}

#[test]
fn edges_of_free_inodes(rt: HostRuntime) {
    compare_inodes(
        &rt,
        &[
            (&[], true),
            (&[(4, 0x0202_0000)], false),
            (&[(4, 0x0402_0000)], false),
            (&[(4, 0x0301_0000)], false),
            (&[(4, 0x0303_0000)], false),
            (&[(16, 1)], false),
            (&[(68, 1), (60, 4096)], false),
            (&[(76, 1)], false),
            (&[(92, 0)], false),
            (&[(92, NONE - 1)], true),
            (&[(92, NONE)], true),
            (&[(96, 0)], false),
            (&[(96, NONE - 1)], false),
        ],
    )
}

/// A record of a fork: its offset in the file, its first block and how many it has.
type Run = (u32, u32, u32);

/// The sector of an inode of group 0 with these records in its fork.
fn fork_of(runs: &[Run]) -> Sector {
    let mut sector = Sector::zero();
    for (place, (offset, start, count)) in runs.iter().enumerate() {
        if place < 21 {
            let at = FORK_AT + 16 * place;
            put_u64(&mut sector.bytes, at, u64::from(*offset) * 512);
            let low = u64::from(*start) * 2_097_152 + u64::from(*count);
            put_u64(&mut sector.bytes, at + 8, low);
        }
    }
    sector
}

/// A fork of these records is taken, or refused.
fn compare_forks(rt: &impl Abort, alloc: Global, rows: &[(&[Run], bool)]) {
    for (runs, taken) in rows {
        let extents = runs.len().min(21) as u32;
        let found = read_fork(alloc, &fork_of(runs), extents, 0);
        assert_eq!(rt; found.is_ok(), *taken, "{runs:?}");
    }
}

#[test]
fn edges_of_forks(rt: HostRuntime) {
    compare_forks(
        &rt,
        rt.alloc(),
        &[
            (&[], true),
            (&[(0, 23, 1)], false),
            (&[(0, 24, 0)], false),
            (&[(0, 24, 1)], true),
            (&[(0, 24, 16_360)], true),
            (&[(0, 24, 16_361)], false),
            (&[(0, 16_383, 1)], true),
            (&[(0, 16_383, 2)], false),
            (&[(0, 16_384, 1)], false),
            (&[(1, 24, 1)], false),
            (&[(0, 24, 1), (1, 25, 1)], false),
            (&[(0, 24, 1), (1, 26, 1)], true),
            (&[(0, 24, 1), (2, 26, 1)], false),
            (&[(0, 24, 2), (2, 24, 1)], true),
        ],
    )
}

/// The leaf of group 0 in block 2, with so many chunks, all of whose inodes are free, and with these words.
fn leaf_with(chunks: u16, words: &[Word]) -> [Sector; 8] {
    let mut bytes = [0; 4096];
    put_bytes(&mut bytes, 0, b"IAB3");
    put_u16(&mut bytes, 6, chunks);
    set(&mut bytes, &[(8, NONE), (12, NONE), (20, 16)]);
    put_bytes(&mut bytes, 32, &UUID);
    for place in 0..252_u16 {
        if place < chunks {
            let at = LEAF_RECORDS_AT + 16 * place as usize;
            put_u32(&mut bytes, at, 64 * u32::from(place));
            put_u32(&mut bytes, at + 4, 64);
            put_u64(&mut bytes, at + 8, u64::MAX);
        }
    }
    set(&mut bytes, words);
    put_crc(&mut bytes, LEAF_CRC_AT);
    let mut page = [Sector::zero(); 8];
    for (place, sector) in page.iter_mut().enumerate() {
        if place < 8 {
            sector
                .bytes
                .copy_from_slice(&bytes[512 * place..512 * place + 512]);
        }
    }
    page
}

/// A leaf of so many chunks, with these words, is taken, or refused.
fn compare_leaves(rt: &impl Abort, alloc: Global, rows: &[(u16, &[Word], bool)]) {
    for (chunks, words, taken) in rows {
        let found = read_page(alloc, &leaf_with(*chunks, words), 2, 0, 16, &UUID);
        assert_eq!(rt; found.is_ok(), *taken, "{chunks} chunks, {words:?}");
    }
}

#[test]
fn edges_of_leaves(rt: HostRuntime) {
    compare_leaves(
        &rt,
        rt.alloc(),
        &[
            (0, &[], true),
            (252, &[], true),
            (253, &[], false),
            (1, &[(4, 0x1_0001)], false),
            (1, &[(8, NONE - 1)], false),
            (1, &[(12, NONE - 1)], false),
            (1, &[(56, 63)], false),
            (1, &[(56, 64)], true),
            (1, &[(56, 65)], false),
            (1, &[(60, 63)], false),
            (1, &[(60, 65)], false),
            (1, &[(60, 63), (64, NONE - 1)], true),
            (1, &[(60, 0), (64, 0), (68, 0)], true),
            (2, &[(56, 64)], false),
            (2, &[(72, 0)], false),
        ],
    )
}
