// An image of two groups.
use ag_header::{AGI_CRC_AT, AGI_UNLINKED_AT};
use geometry::{Geometry, SUPERBLOCK_CRC_AT};
use inobt_leaf::{LEAF_CRC_AT, LEAF_RECORDS_AT};
use inode_core::{CORE_CRC_AT, FORK_AT};
use life_bytes::{Sector, put_crc, put_u16, put_u32, put_u64};
use life_ports::NoMemory;
use std::alloc::Global;

const UUID: [u8; 16] = [0, 1, 2, 3, 4, 5, 6, 7, 8, 9, 10, 11, 12, 13, 14, 15];

/// The end of an unlinked bucket.
pub const NO_INODE: u32 = 0xffff_ffff;

/// The sectors of a group.
pub const GROUP: usize = 512;

/// The anchor's sector, behind two groups.
pub const ANCHOR: usize = 1024;

/// How many sectors the image has.
pub const SECTORS: usize = 1281;

pub const GEOMETRY: Geometry = Geometry {
    version: 1,
    groups: 2,
    blocks: 64,
    ring: 256,
    uuid: UUID,
};

/// An inode in use: its number in its group, its generation, its links, the next inode of its unlinked bucket, its first block, and how many blocks it has
/// from there on.
#[derive(Clone, Copy, Drop)]
pub struct File {
    pub agino: u32,
    pub generation: u32,
    pub links: u32,
    pub next: u32,
    pub first: u32,
    pub blocks: u32,
}

/// What stands in a group.
#[derive(Clone, Copy, Drop)]
pub struct Group<'a> {
    /// The first inode of each chunk, ascending.
    pub chunks: &'a [u32],
    /// The inodes in use.
    pub files: &'a [File],
    /// The free inodes whose generation is not 1, with it.
    pub freed: &'a [(u32, u32)],
    /// The unlinked buckets that are not empty, each with its first inode.
    pub heads: &'a [(u32, u32)],
}

/// Puts a sector in its place.
pub fn put(image: &mut Vec<Sector>, at: usize, sector: &Sector) {
    if at < image.len() {
        image[at] = *sector;
    }
}

fn superblock() -> Sector {
    let mut sector = Sector::zero();
    sector.bytes[..4].copy_from_slice(b"LIFE");
    put_u32(&mut sector.bytes, 4, 1);
    put_u32(&mut sector.bytes, 8, 2);
    put_u32(&mut sector.bytes, 12, 64);
    put_u32(&mut sector.bytes, 16, 256);
    sector.bytes[24..40].copy_from_slice(&UUID);
    put_crc(&mut sector.bytes, SUPERBLOCK_CRC_AT);
    sector
}

/// An anchor whose log begins at this position, with this commit number.
fn anchor(position: u64, next_commit: u64) -> Sector {
    let mut sector = Sector::zero();
    sector.bytes[..4].copy_from_slice(b"ANCH");
    put_u64(&mut sector.bytes, 8, position);
    put_u64(&mut sector.bytes, 16, next_commit);
    put_crc(&mut sector.bytes, 4);
    sector
}

/// How many there are, up to 4,096.
fn count<T>(items: &[T]) -> u32 {
    items.len().min(4096) as u32
}

fn header(number: u32, group: &Group) -> Sector {
    let mut sector = Sector::zero();
    sector.bytes[..4].copy_from_slice(b"XAGI");
    put_u32(&mut sector.bytes, 4, 1);
    put_u32(&mut sector.bytes, 8, number);
    put_u32(&mut sector.bytes, 12, 64);
    put_u32(&mut sector.bytes, 16, count(group.chunks).wrapping_mul(64));
    put_u32(&mut sector.bytes, 20, 2);
    put_u32(&mut sector.bytes, 24, 1);
    put_u32(
        &mut sector.bytes,
        28,
        count(group.chunks)
            .wrapping_mul(64)
            .wrapping_sub(count(group.files)),
    );
    for i in 0..66 {
        put_u32(&mut sector.bytes, 32 + 4 * i, NO_INODE);
    }
    for (bucket, head) in group.heads {
        let at = AGI_UNLINKED_AT + 4 * (*bucket % 64) as usize;
        put_u32(&mut sector.bytes, at, *head);
    }
    sector.bytes[296..312].copy_from_slice(&UUID);
    put_crc(&mut sector.bytes, AGI_CRC_AT);
    sector
}

/// The free inodes of a chunk: bit j is set where the inode start + j is free.
fn free_mask(start: u32, group: &Group) -> u64 {
    let mut mask = u64::MAX;
    for file in group.files {
        if file.agino / 64 == start / 64 {
            mask &= !(1 << (file.agino % 64));
        }
    }
    mask
}

/// The leaf of a group.
fn page(number: u32, group: &Group) -> [u8; 4096] {
    let mut bytes = [0; 4096];
    bytes[..4].copy_from_slice(b"IAB3");
    put_u16(&mut bytes, 6, group.chunks.len().min(252) as u16);
    put_u32(&mut bytes, 8, NO_INODE);
    put_u32(&mut bytes, 12, NO_INODE);
    put_u64(&mut bytes, 16, u64::from(number) * 512 + 16);
    bytes[32..48].copy_from_slice(&UUID);
    put_u32(&mut bytes, 48, number);
    for (i, start) in group.chunks.iter().take(252).enumerate() {
        let mask = free_mask(*start, group);
        let at = LEAF_RECORDS_AT + 16 * i;
        put_u32(&mut bytes, at, *start);
        put_u32(&mut bytes, at + 4, mask.count_ones());
        put_u64(&mut bytes, at + 8, mask);
    }
    put_crc(&mut bytes, LEAF_CRC_AT);
    bytes
}

/// So many bits from one on.
fn bits(first: u32, count: u32) -> u64 {
    let mut found = 0;
    for k in 0..64_u32 {
        if k >= first && k - first < count {
            found |= 1 << k;
        }
    }
    found
}

/// The bitmap's first sector: each block from 24 on is free that no chunk and no file has.
fn bitmap(group: &Group) -> Sector {
    let mut free = bits(24, 40);
    for start in group.chunks {
        free &= !bits(*start / 8, 8);
    }
    for file in group.files {
        free &= !bits(file.first, file.blocks);
    }
    let mut sector = Sector::zero();
    put_u64(&mut sector.bytes, 0, free.swap_bytes());
    sector
}

/// A free inode of this generation.
fn free_inode(number: u32, agino: u32, generation: u32) -> Sector {
    let mut sector = Sector::zero();
    let bytes = &mut sector.bytes;
    put_u16(bytes, 0, 0x494e);
    bytes[4] = 3;
    bytes[5] = 2;
    put_u32(bytes, 92, generation);
    put_u32(bytes, 96, NO_INODE);
    put_u64(bytes, 152, u64::from(number) * 131_072 + u64::from(agino));
    bytes[160..176].copy_from_slice(&UUID);
    put_crc(bytes, CORE_CRC_AT);
    sector
}

/// An inode in use, with at most one run of blocks.
fn inode(number: u32, file: &File) -> Sector {
    let mut sector = free_inode(number, file.agino, file.generation);
    let bytes = &mut sector.bytes;
    put_u16(bytes, 2, 0x81a4);
    put_u32(bytes, 16, file.links);
    put_u64(bytes, 56, u64::from(file.blocks) * 4096);
    put_u64(bytes, 64, u64::from(file.blocks));
    put_u32(bytes, 96, file.next);
    if file.blocks > 0 {
        let start = u64::from(number) * 16_384 + u64::from(file.first);
        put_u32(bytes, 76, 1);
        put_u64(
            bytes,
            FORK_AT + 8,
            start % 4_294_967_296 * 2_097_152 + u64::from(file.blocks),
        );
    }
    put_crc(bytes, CORE_CRC_AT);
    sector
}

/// Puts the bytes of a page into its eight sectors.
pub fn put_page(image: &mut Vec<Sector>, at: usize, bytes: &[u8; 4096]) {
    for k in 0..8 {
        let mut sector = Sector::zero();
        sector.bytes.copy_from_slice(&bytes[512 * k..512 * k + 512]);
        put(image, at.wrapping_add(k), &sector);
    }
}

/// Puts the inodes of a group: first each as a free one of generation 1, and then those that the group names.
fn put_inodes(image: &mut Vec<Sector>, number: u32, from: usize, group: &Group) {
    for start in group.chunks {
        for j in 0..64 {
            let agino = start.wrapping_add(j);
            put(
                image,
                from.wrapping_add(agino as usize),
                &free_inode(number, agino, 1),
            );
        }
    }
    for (agino, generation) in group.freed {
        put(
            image,
            from.wrapping_add(*agino as usize),
            &free_inode(number, *agino, *generation),
        );
    }
    for file in group.files {
        put(
            image,
            from.wrapping_add(file.agino as usize),
            &inode(number, file),
        );
    }
}

fn put_group(image: &mut Vec<Sector>, number: u32, group: &Group) {
    let from = (number as usize).wrapping_mul(GROUP);
    put(image, from.wrapping_add(2), &header(number, group));
    put(image, from.wrapping_add(8), &bitmap(group));
    put_page(image, from.wrapping_add(16), &page(number, group));
    put_inodes(image, number, from, group);
}

/// The image of two groups, whose log has no record, begins at this position and goes on with this commit number.
pub fn image_of(
    alloc: Global,
    groups: [&Group; 2],
    position: u64,
    next_commit: u64,
) -> Result<Vec<Sector>, NoMemory> {
    let mut image = vec![in alloc; Sector::zero(); SECTORS]?;
    put_group(&mut image, 0, groups[0]);
    put_group(&mut image, 1, groups[1]);
    put(&mut image, 0, &superblock());
    put(&mut image, ANCHOR, &anchor(position, next_commit));
    Ok(image)
}
